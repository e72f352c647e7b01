//! Devices of bytes, which are read and written at any offset.
ghost use Rattle.std.specs.Prelude.{◌≡◌, ◌≤◌, ◌+◌, ℕ, List, length, IfOk, OnOk, OnErr};
ghost use Rattle.verity_io.specs.Counting.{CountsFailure};
ghost use Rattle.verity_io.specs.Reading.{ReadsAt};
ghost use Rattle.verity_io.specs.Writing.{most_bytes, put, Spoiled};

use crate::failed::Failed;

/// The most bytes of a device, 2^63 - 1: the largest offset of a file (`off_t` of POSIX's `<sys/types.h>`, of 64 bits).
pub const MOST_BYTES: u64 = (1 << 63) - 1;

/// What holds a tree of hash blocks. Laws on bytes hold if the device tells its bytes, as one over memory does and one
/// over a file doesn't.
pub trait Device {
    /// Whether the value tells its bytes.
    ghost tells: { Self → Type 0 };

    /// All its bytes, if it tells them.
    ghost content: { Self → List ℕ };

    /// How many calls have failed, up to the last value of a u64.
    ghost failures: { Self → ℕ };

    /// Reads from an offset on, in bytes, into the start of the buffer. The answer is how many bytes were read: fewer
    /// than the buffer's length only where the device ends. `Failed` if it can't be read: the buffer may hold anything
    /// then.
    fn read_at(&mut self, at: u64, buf: &mut [u8]) -> Result<usize, Failed>
        ensures bound { IfOk result (λ k. k ≤ length buf.new) }
        ensures told { tells self.old → tells self.new }
        ensures same { tells self.old → content self.new ≡ content self.old }
        ensures bytes { tells self.old → ReadsAt result at (content self.old) buf.new }
        ensures count { CountsFailure (failures self.old) (failures self.new) result };

    /// Writes at an offset in bytes, with zeros in a gap past the old end. The offset plus the number of bytes is at
    /// most `MOST_BYTES`. `Failed` if it can't be written: then the bytes from the offset on, for the length of the
    /// write, are unknown, every other byte stays, and the device is no shorter than before and no longer than the
    /// write would have made it; a gap past the old end is zeros.
    fn write_at(&mut self, at: u64, bytes: &[u8]) -> Result<(), Failed>
        requires { at + length bytes.now ≤ most_bytes }
        ensures told { tells self.old → tells self.new }
        ensures ok { tells self.old → OnOk result (content self.new ≡ put (content self.old) at bytes.now) }
        ensures failed { tells self.old
            → OnErr result (Spoiled (content self.old) at (length bytes.now) (content self.new)) }
        ensures count { CountsFailure (failures self.old) (failures self.new) result };
}
