//! The program over any runtime: files, streams and randomness.

pub(crate) mod done;
pub(crate) mod dump;
pub(crate) mod entry;
pub(crate) mod file_paths;
pub(crate) mod format;
pub(crate) mod random_bytes;
pub(crate) mod syncing;
pub(crate) mod verify;
