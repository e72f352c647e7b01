//! The program, over the files and streams of any runtime.

pub(crate) mod digest;
pub(crate) mod done;
pub(crate) mod entry;
pub(crate) mod output_files;
pub(crate) mod outputs;
