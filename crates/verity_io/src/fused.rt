//! A source or device that fails one call.
ghost use Rattle.std.specs.Prelude.{◌≡◌, ◌≤◌, ◌+◌, ◌↔◌, length, IfOk, OnOk, OnErr, IsTrue};
ghost use Rattle.verity_io.specs.Counting.{CountsFailure};
ghost use Rattle.verity_io.specs.Fusing.{fused_inner, fused_call, fused_calls, fused_failures, FailsNext, CountsCall};
ghost use Rattle.verity_io.specs.Fusing.{FailsCall, PassesOn};
ghost use Rattle.verity_io.specs.Reading.{ReadsAt, TakesNext};
ghost use Rattle.verity_io.specs.Writing.{most_bytes, put, Spoiled};

use crate::device::Device;
use crate::failed::{Failed, count_failure};
use crate::source::Source;

/// A source or device that fails one call, which leaves the value within as it is, and passes every other call on: such
/// a call answers `Failed` exactly if the value within counts a failure. It serves to test what a caller does after a
/// fault.
#[derive(Drop)]
pub struct Fused<T> {
    inner: T,
    call: u64,
    calls: u64,
    failures: u64,
}

impl<T> Fused<T> {
    /// Makes the call of this number fail, counted from 1, and none for 0.
    pub fn new(inner: T, call: u64) -> Self
        ensures inner { fused_inner result ≡ inner }
        ensures call { fused_call result ≡ call }
        ensures calls { fused_calls result ≡ 0 }
        ensures failures { fused_failures result ≡ 0 }
    {
        Fused {
            inner,
            call,
            calls: 0,
            failures: 0,
        }
    }

    /// How often it was called, at most 2^64 - 1.
    pub fn calls(&self) -> u64
        ensures { result ≡ fused_calls self.now }
    {
        self.calls
    }

    /// How many calls failed, at most 2^64 - 1.
    pub fn failures(&self) -> u64
        ensures { result ≡ fused_failures self.now }
    {
        self.failures
    }

    /// The value within.
    pub fn inner(&self) -> &T
        ensures { result.now ≡ fused_inner self.now }
    {
        &self.inner
    }

    /// Gives back the value within.
    pub fn into_inner(self) -> T
        ensures { result ≡ fused_inner self }
    {
        let Fused { inner, .. } = self;
        inner
    }

    // Counts a call, and says whether it is the one to fail.
    fn is_failing_call(&mut self) -> bool
        ensures calls { CountsCall self.old self.new }
        ensures fails { IsTrue result ↔ FailsNext self.old }
        ensures inner { fused_inner self.new ≡ fused_inner self.old }
        ensures failures { fused_failures self.new ≡ fused_failures self.old }
    {
        if self.calls == u64::MAX {
            return false;
        }
        self.calls += 1;
        self.calls == self.call
    }
}

impl<S: Source> Source for Fused<S> {
    ghost tells = { λ f. S.tells f.inner };

    ghost remaining = { λ f. S.remaining f.inner };

    ghost failures = { λ f. f.failures };

    fn read(&mut self, buf: &mut [u8]) -> Result<usize, Failed>
        ensures bound { IfOk result (λ k. k ≤ length buf.new) }
        ensures told { S.tells (fused_inner self.old) → S.tells (fused_inner self.new) }
        ensures bytes { S.tells (fused_inner self.old) →
            TakesNext result buf.new (S.remaining (fused_inner self.old)) (S.remaining (fused_inner self.new)) }
        ensures count { CountsFailure (fused_failures self.old) (fused_failures self.new) result }
        ensures calls { CountsCall self.old self.new }
        ensures fails { FailsCall self.old self.new result }
        ensures passed { PassesOn S.failures self.old self.new result }
    {
        let outcome = if self.is_failing_call() {
            Err(Failed)
        } else {
            self.inner.read(buf)
        };
        count_failure(&mut self.failures, outcome)
    }
}

impl<D: Device> Device for Fused<D> {
    ghost tells = { λ f. D.tells f.inner };

    ghost content = { λ f. D.content f.inner };

    ghost failures = { λ f. f.failures };

    fn read_at(&mut self, at: u64, buf: &mut [u8]) -> Result<usize, Failed>
        ensures bound { IfOk result (λ k. k ≤ length buf.new) }
        ensures told { D.tells (fused_inner self.old) → D.tells (fused_inner self.new) }
        ensures same { D.tells (fused_inner self.old) →
            D.content (fused_inner self.new) ≡ D.content (fused_inner self.old) }
        ensures bytes { D.tells (fused_inner self.old) →
            ReadsAt result at (D.content (fused_inner self.old)) buf.new }
        ensures count { CountsFailure (fused_failures self.old) (fused_failures self.new) result }
        ensures calls { CountsCall self.old self.new }
        ensures fails { FailsCall self.old self.new result }
        ensures passed { PassesOn D.failures self.old self.new result }
    {
        let outcome = if self.is_failing_call() {
            Err(Failed)
        } else {
            self.inner.read_at(at, buf)
        };
        count_failure(&mut self.failures, outcome)
    }

    fn write_at(&mut self, at: u64, bytes: &[u8]) -> Result<(), Failed>
        requires { at + length bytes.now ≤ most_bytes }
        ensures told { D.tells (fused_inner self.old) → D.tells (fused_inner self.new) }
        ensures ok { D.tells (fused_inner self.old) →
            OnOk result (D.content (fused_inner self.new) ≡ put (D.content (fused_inner self.old)) at bytes.now) }
        ensures failed { D.tells (fused_inner self.old) → OnErr result
            (Spoiled (D.content (fused_inner self.old)) at (length bytes.now) (D.content (fused_inner self.new))) }
        ensures count { CountsFailure (fused_failures self.old) (fused_failures self.new) result }
        ensures calls { CountsCall self.old self.new }
        ensures fails { FailsCall self.old self.new result }
        ensures passed { PassesOn D.failures self.old self.new result }
    {
        let outcome = if self.is_failing_call() {
            Err(Failed)
        } else {
            self.inner.write_at(at, bytes)
        };
        count_failure(&mut self.failures, outcome)
    }
}
