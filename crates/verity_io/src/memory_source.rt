//! A source over bytes in memory.
ghost use Rattle.std.specs.Prelude.{◌≡◌, ◌≤◌, min, List, ℕ, length, IfOk, IsOk};
ghost use Rattle.verity_io.specs.Counting.{CountsFailure};
ghost use Rattle.verity_io.specs.Reading.{TakesNext};

use crate::failed::Failed;
use crate::source::Source;
use std::marker::Model;

/// Borrowed bytes, read from the first on. Contracts see it as the list of those that remain. It never fails.
#[derive(Drop)]
pub struct MemorySource<'a> {
    rest: &'a [u8],
}

impl<'a> Model for MemorySource<'a> {
    ghost Value = { List ℕ };

    ghost view = { λ s. s.rest.now };
}

impl<'a> MemorySource<'a> {
    /// A source of these bytes.
    pub fn new(bytes: &'a [u8]) -> Self
        ensures { result ≡ bytes.now }
    {
        MemorySource { rest: bytes }
    }

    /// The remaining bytes.
    pub fn rest(&self) -> &'a [u8]
        ensures { result.now ≡ self.now }
    {
        self.rest
    }
}

/// A read fills the buffer as far as the bytes go, and never fails.
impl<'a> Source for MemorySource<'a> {
    ghost tells = { λ _. Unit {0} };

    ghost remaining = { λ s. s };

    ghost failures = { λ _. 0 };

    fn read(&mut self, buf: &mut [u8]) -> Result<usize, Failed>
        ensures never { IsOk result }
        ensures all { IfOk result (λ k. k ≡ min (length self.old) (length buf.new)) }
        ensures bound { IfOk result (λ k. k ≤ length buf.new) }
        ensures told { ⟦<MemorySource<'a> as Source>⟧.tells self.old → ⟦<MemorySource<'a> as Source>⟧.tells self.new }
        ensures bytes { ⟦<MemorySource<'a> as Source>⟧.tells self.old → TakesNext result buf.new self.old self.new }
        ensures count { CountsFailure 0 0 result }
    {
        let count = self.rest.len().min(buf.len());
        let (next, rest) = self.rest.split_at(count);
        buf[..count].copy_from_slice(next);
        self.rest = rest;
        Ok(count)
    }
}
