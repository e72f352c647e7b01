//! Why a file has no digest.

/// Why a file has no digest.
#[derive(Clone, Copy, Debug, PartialEq, Eq)]
pub enum DigestFault {
    /// The file's blocks, or its tree, would have more than 2^63 - 1 bytes.
    TooLarge,
    /// The file ended before the end of this block, counted from 0. The last block ends at the size that was stated.
    SourceShort(u64),
    /// A read failed within this block of the file, counted from 0.
    SourceFailed(u64),
    /// This hash block could not be written to the tree's device; both are counted from 0, level 0 next to the data.
    DeviceFailed {
        /// The level.
        level: usize,
        /// The block of the level.
        block: u64,
    },
    /// There was not enough memory.
    Memory,
}
