//! The command line, and how its words are read.

pub(crate) mod commands;
pub(crate) mod line;
pub(crate) mod reading;
pub(crate) mod usage;
