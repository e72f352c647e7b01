//! The bytes of dm-verity superblocks, fs-verity descriptors and formatted digests. `put_all` of `verity_io`, by which
//! they are written, stands here too.
#![tactic(auto)]

mod descriptor;
mod field_writer;
mod formatted;
pub mod laws;
mod layout;
mod reading;
mod super_fault;
mod superblock;
mod writing;

pub use descriptor::{Descriptor, file_digest, write_descriptor};
pub use formatted::{Formatted, formatted_digest};
pub use reading::read_superblock;
pub use super_fault::SuperFault;
pub use superblock::Superblock;
pub use verity_io::{PutFault, put_all};
pub use writing::write_superblock;
