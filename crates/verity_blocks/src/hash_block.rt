//! A hash block that is handed out.

/// A hash block that has closed.
#[derive(Clone, Copy, Debug, PartialEq, Eq)]
pub struct HashBlock {
    /// Its level, counted from 0 next to the data.
    pub level: usize,
    /// Its number in the level, counted from 0.
    pub index: u64,
    /// The byte of the device at which it goes (Linux kernel, dm-verity page, "On-disk format").
    pub start: u64,
    /// The byte of the open blocks, with which a builder's memory begins, at which it stands until the next step, such as
    /// the next call of `feed`; as long as a hash block.
    pub at: usize,
}
