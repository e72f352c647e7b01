//! From the texts of a line's options to settings.

pub(crate) mod hash_offset;
pub(crate) mod numbers;
pub(crate) mod option_fault;
pub(crate) mod raw_options;
pub(crate) mod root_hash;
pub(crate) mod salts;
pub(crate) mod settings;
pub(crate) mod tree;
pub(crate) mod uuids;
