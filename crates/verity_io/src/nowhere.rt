//! A device that keeps nothing.
ghost use Rattle.std.specs.Prelude.{◌≡◌, ◌≤◌, Ok, [], length, IfOk};
ghost use Rattle.verity_io.specs.Counting.{CountsFailure};

use crate::device::Device;
use crate::failed::Failed;

/// A device that takes each write and keeps nothing, for when only the root hash is wanted. It never fails.
#[derive(Clone, Copy)]
pub struct Nowhere;

impl Device for Nowhere {
    ghost tells = { λ _. ⊥ };

    ghost content = { λ _. [] };

    ghost failures = { λ _. 0 };

    /// There is nothing to read.
    fn read_at(&mut self, _at: u64, buf: &mut [u8]) -> Result<usize, Failed>
        ensures nothing { result ≡ Ok 0 }
        ensures bound { IfOk result (λ k. k ≤ length buf.new) }
        ensures count { CountsFailure 0 0 result }
    {
        Ok(0)
    }

    fn write_at(&mut self, _at: u64, _bytes: &[u8]) -> Result<(), Failed> {
        Ok(())
    }
}
