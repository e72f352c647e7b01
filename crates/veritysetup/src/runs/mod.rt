//! The runs of format, dump and verify, over any source and device.

pub(crate) mod completed;
pub(crate) mod dump;
pub(crate) mod file_names;
pub(crate) mod format;
pub(crate) mod stored_superblock;
pub(crate) mod trusted_tree;
pub(crate) mod verify;
pub(crate) mod verify_input;
