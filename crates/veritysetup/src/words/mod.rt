//! From the words of a command line to a line.

pub(crate) mod command_name;
pub(crate) mod commands;
pub(crate) mod line;
pub(crate) mod reading;
pub(crate) mod usage;
