//! What a tree of block hashes is made by, and where its blocks go, as the Linux kernel's dm-verity and fs-verity have
//! it: hash type, settings, and the plan, which is arithmetic alone.
#![tactic(auto)]

mod base;
mod hash_type;
pub mod laws;
mod plan;
mod plan_fault;
mod setting_fault;
mod settings;

pub use base::{SUPERBLOCK_SIZE, base_of, multiple_of, offset_unit, plan_at};
pub use hash_type::HashType;
pub use plan::Plan;
pub use plan_fault::PlanFault;
pub use setting_fault::SettingFault;
pub use settings::{MOST_SALT, TreeSettings, is_verity_block_size};
