//! The settings that a command line's options give.

pub(crate) mod digest_options;
pub(crate) mod option_fault;
pub(crate) mod settings;
pub(crate) mod tree;
