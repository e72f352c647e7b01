//! Sources of bytes, which only move forward.
ghost use Rattle.std.specs.Prelude.{◌≤◌, ℕ, List, length, IfOk};
ghost use Rattle.verity_io.specs.Counting.{CountsFailure};
ghost use Rattle.verity_io.specs.Reading.{TakesNext, TakesBlock};

use crate::failed::Failed;

/// Where data is read from, once, from its first byte to its last. Laws on bytes hold if the source tells its bytes, as
/// one over memory does and one over a file doesn't.
pub trait Source {
    /// Whether the value tells its bytes.
    ghost tells: { Self → Type 0 };

    /// The remaining bytes, if it tells them.
    ghost remaining: { Self → List ℕ };

    /// How many calls have failed, up to the last value of a u64.
    ghost failures: { Self → ℕ };

    /// Reads some of the next bytes into the start of the buffer, and none only at the end or with no room. The answer
    /// is how many. `Failed` if the source can't be read: no byte is used up then, and the buffer may hold anything.
    fn read(&mut self, buf: &mut [u8]) -> Result<usize, Failed>
        ensures bound { IfOk result (λ k. k ≤ length buf.new) }
        ensures told { tells self.old → tells self.new }
        ensures bytes { tells self.old → TakesNext result buf.new (remaining self.old) (remaining self.new) }
        ensures count { CountsFailure (failures self.old) (failures self.new) result };
}

/// Reads until the buffer is full or the source ends, however short the single reads are. The answer is how many bytes
/// the buffer has now, fewer than its length only at the source's end. `Failed` if a read fails: some bytes, fewer than
/// the buffer's length, are used up then.
pub fn read_block<S: Source>(source: &mut S, buf: &mut [u8]) -> Result<usize, Failed>
    ensures bound { IfOk result (λ k. k ≤ length buf.new) }
    ensures told { S.tells source.old → S.tells source.new }
    ensures bytes { S.tells source.old → TakesBlock result buf.new (S.remaining source.old) (S.remaining source.new) }
    ensures count { CountsFailure (S.failures source.old) (S.failures source.new) result }
{
    let mut end = 0;
    while end < buf.len() {
        let count = source.read(&mut buf[end..])?;
        if count == 0 {
            break;
        }
        end += count;
    }
    Ok(end)
}
