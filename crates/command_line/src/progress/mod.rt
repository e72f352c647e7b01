//! The progress of long work, on a terminal.

pub(crate) mod estimates;
pub(crate) mod progress_reader;
pub(crate) mod progress_runtime;
pub(crate) mod shown_progress;
