//! Sources and devices of bytes: what data is read from once, and what hash blocks are read from and written to, over
//! memory, over files, and with a call that fails. And how a text is written to the end or to the first fault.
#![tactic(auto)]

mod device;
mod failed;
mod file_device;
mod file_source;
mod fused;
mod memory_device;
mod memory_source;
mod nowhere;
mod putting;
mod source;

pub use device::{Device, MOST_BYTES};
pub use failed::Failed;
pub use file_device::FileDevice;
pub use file_source::FileSource;
pub use fused::Fused;
pub use memory_device::MemoryDevice;
pub use memory_source::MemorySource;
pub use nowhere::Nowhere;
pub use putting::{PutFault, put_all};
pub use source::{Source, read_block};
