//! The library for C, `libverity`: superblocks, descriptors, plans and checks of dm-verity and fs-verity, and trees
//! that are built as their data comes, for programs that aren't written in Rattle. Each export says again what the
//! libraries below prove of it, by the definitions of `verity_c_api`. `include/verity.h` has the same functions in C,
//! with what a caller owes: pointers and lengths that are right. Nothing is required of a value, so whatever numbers,
//! bytes and structs are handed in, a call returns with its answer.
#![tactic(auto)]

mod algorithms;
mod beginning_parts;
mod blocks;
mod defaults;
mod file_building;
mod file_tree_building;
mod files;
mod joins;
mod levels;
mod links;
mod parts;
mod plans;
mod same;
mod sizes;
mod superblock;
mod texts;
mod tree_building;
mod version;

pub use algorithms::{
    fsverity_formatted_digest, verity_algorithm_by_name, verity_algorithm_name,
    verity_digest_length,
};
pub use beginning_parts::{
    fsverity_join_memory, fsverity_part_begin, fsverity_part_count, fsverity_part_memory,
    verity_join_memory, verity_part_begin, verity_part_count, verity_part_memory,
};
pub use blocks::{fsverity_check_block, verity_check_block};
pub use defaults::verity_default_params;
pub use file_building::{
    fsverity_build_begin, fsverity_build_end, fsverity_build_feed, fsverity_build_memory,
};
pub use file_tree_building::{
    fsverity_tree_build_begin, fsverity_tree_build_end, fsverity_tree_build_end_block,
    fsverity_tree_build_feed,
};
pub use files::{fsverity_descriptor, fsverity_file_digest};
pub use joins::{
    fsverity_join_begin, fsverity_join_end, fsverity_join_feed, fsverity_join_last_block,
    verity_join_begin, verity_join_end, verity_join_feed, verity_join_last_block,
};
pub use levels::{
    fsverity_hash_block_start, fsverity_level_count, fsverity_level_start, verity_hash_block_start,
    verity_level_count, verity_level_start,
};
pub use links::{fsverity_check_link, fsverity_check_top, verity_check_link, verity_check_top};
pub use parts::{
    fsverity_part_end, fsverity_part_feed, fsverity_part_last_block, verity_part_end,
    verity_part_feed, verity_part_last_block,
};
pub use same::verity_same_params;
pub use sizes::{fsverity_tree_size, verity_hash_area_end};
pub use superblock::{verity_read_superblock, verity_write_superblock};
pub use texts::verity_status_text;
pub use tree_building::{
    verity_build_begin, verity_build_end, verity_build_feed, verity_build_last_block,
    verity_build_memory,
};
pub use verity_c_api::{
    FsverityParams, VerityBuild, VerityFed, VerityJoin, VerityParams, VerityPart, laws,
};
pub use version::verity_version;
