//! Builders of trees of block hashes: of a tree, of a file's whose length isn't known before, of a part of a tree, and of
//! what stands above the parts. Each is fed, and hands hash blocks out as they close.
#![tactic(auto)]

mod fed_tree;
mod feed_fault;
mod feeding;
mod file_builder;
mod file_tree_builder;
mod join_builder;
pub mod laws;
mod part_builder;
mod tree_builder;

pub use feed_fault::FeedFault;
pub use file_builder::FileBuilder;
pub use file_tree_builder::{FileFed, FileHashBlock, FileTreeBuilder};
pub use join_builder::JoinBuilder;
pub use part_builder::{PartBuilder, PartFault};
pub use tree_builder::{Fed, TreeBuilder};
pub use verity_blocks::HashBlock;
