//! Why a pass over the data ends early.

/// Why a data block isn't read.
#[derive(Clone, Copy)]
pub(crate) enum BlockFault {
    /// The source ended before the block's end.
    Short,
    /// The source failed.
    Failed,
}

/// The data block within which the source stops, counted from 0, and why.
#[derive(Clone, Copy)]
pub(crate) struct SourceStop {
    pub block: u64,
    pub why: BlockFault,
}

/// The hash block at which a pass stops, and why. Both numbers are counted from 0, level 0 next to the data.
#[derive(Clone, Copy)]
pub(crate) struct Stop<F> {
    pub level: usize,
    pub block: u64,
    pub why: F,
}

/// Why a pass ends early.
#[derive(Clone, Copy)]
pub(crate) enum PassFault<F> {
    /// The source stopped within a data block.
    InData(SourceStop),
    /// The pass stopped at a hash block.
    AtBlock(Stop<F>),
}
