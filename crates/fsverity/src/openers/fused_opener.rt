//! An opener each of whose sources fails one call.
ghost use Rattle.std.specs.Prelude.{◌≡◌, ◌≤◌, ◌+◌, ◌<◌, min, IfOk, OnErr};
ghost use Rattle.verity_io.specs.Counting.{last_count};
ghost use Rattle.verity_io.specs.Fusing.{fused_failures, fused_inner};
ghost use Rattle.fsverity.specs.Openers.FusedOpeners.{opener_call, opener_failures, opener_within, StartsFused};
ghost use Rattle.fsverity.specs.Openers.Opening.{CountsOpening, FailsFor, IsFileAt, SameFiles};

use crate::openers::opener::Opener;
use verity_io::{Failed, Fused};

/// Opens the files of another opener, and fails one call of each of their sources. Tests run over it to see what a run
/// does at a fault.
#[derive(Drop)]
pub struct FusedOpener<O> {
    inner: O,
    call: u64,
    failures: u64,
}

impl<O: Opener> FusedOpener<O> {
    /// Fails this call of each source, counted from 1; with 0 no call fails.
    pub fn new(inner: O, call: u64) -> Self
        ensures within { opener_within result ≡ inner }
        ensures call { opener_call result ≡ call }
        ensures failures { opener_failures result ≡ 0 }
    {
        FusedOpener {
            inner,
            call,
            failures: 0,
        }
    }
}

impl<O: Opener> Opener for FusedOpener<O> {
    type Stream = Fused<O::Stream>;

    ghost count = { λ o. O.count o.inner };

    ghost tells = { λ o. O.tells o.inner };

    ghost files = { λ o. O.files o.inner };

    ghost next = { λ o. O.next o.inner };

    ghost failures = { λ o. o.failures };

    ghost counted = { λ o told. O.counted o.inner told };

    fn start(&mut self) -> Result<(u64, Fused<O::Stream>), Failed>
        requires { O.next (opener_within self.old) < O.count (opener_within self.old) }
        ensures next { O.next (opener_within self.new) ≡ O.next (opener_within self.old) + 1 }
        ensures same { SameFiles O.tells O.files O.count (opener_within self.old) (opener_within self.new) }
        ensures fresh { IfOk result (λ opened. fused_failures opened.1 ≡ 0) }
        ensures ok { O.tells (opener_within self.old) → IfOk result (λ opened.
            O.Stream.tells (fused_inner opened.1) × IsFileAt (O.files (opener_within self.old))
            (O.next (opener_within self.old)) opened.0 (O.Stream.remaining (fused_inner opened.1))) }
        ensures failures { CountsOpening (opener_failures self.old) (opener_failures self.new) result }
        ensures failed { OnErr result (FailsFor (O.tells (opener_within self.old)) (O.files (opener_within self.old))
            (O.next (opener_within self.old)) (opener_failures self.old) (opener_failures self.new)) }

        // Each source has its own fuse, and was not called yet.
        ensures fused { IfOk result (λ opened. StartsFused (opener_call self.old) opened.1) }
        ensures call { opener_call self.new ≡ opener_call self.old }
    {
        match self.inner.start() {
            Ok((length, stream)) => Ok((length, Fused::new(stream, self.call))),
            Err(Failed) => {
                self.failures = self.failures.saturating_add(1);
                Err(Failed)
            }
        }
    }

    fn end(&mut self, stream: Fused<O::Stream>)
        ensures next { O.next (opener_within self.new) ≡ O.next (opener_within self.old) }
        ensures same { SameFiles O.tells O.files O.count (opener_within self.old) (opener_within self.new) }
        ensures failures { opener_failures self.new
            ≡ min (opener_failures self.old + fused_failures stream) last_count }
        ensures kept { opener_failures self.old ≤ opener_failures self.new }
        ensures call { opener_call self.new ≡ opener_call self.old }
    {
        let failures = stream.failures();
        self.inner.end(stream.into_inner());
        self.failures = self.failures.saturating_add(failures);
    }
}
