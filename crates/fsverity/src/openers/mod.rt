//! The files of a run, and how they are opened.

pub(crate) mod file_opener;
pub(crate) mod fused_opener;
pub(crate) mod memory_opener;
pub(crate) mod opener;
