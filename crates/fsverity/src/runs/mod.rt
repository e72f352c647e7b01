//! The digest of a file, and the runs: over files, and over one file with output files.

pub(crate) mod completed;
pub(crate) mod digest;
pub(crate) mod digest_fault;
pub(crate) mod file_digest;
pub(crate) mod outputs;
