//! Trees of block hashes, as the Linux kernel's dm-verity and fs-verity have them, for those who call for them. How one is
//! built, or compared with a stored one, in one pass over the data is in `verity_pass`, how one is built of pieces and of
//! parts in `verity_builders`, what it is made by and where its blocks go in `verity_plan`, and what is read and written in
//! `verity_io`: what a caller needs of them stands here.
#![tactic(auto)]

pub mod laws;

pub use verity_builders::{
    Fed, FeedFault, FileBuilder, FileFed, FileHashBlock, FileTreeBuilder, HashBlock, JoinBuilder,
    PartBuilder, PartFault, TreeBuilder,
};
pub use verity_io::{
    Device, Failed, FileDevice, FileSource, Fused, MemoryDevice, MemorySource, Nowhere, Source,
};
pub use verity_pass::{
    BuildFault, CompareFault, LinkFault, Part, PathFault, Store, build, check_block, check_link,
    check_top, compare, root_by_levels, root_only,
};
pub use verity_plan::{HashType, Plan, PlanFault, SettingFault, TreeSettings, base_of};
