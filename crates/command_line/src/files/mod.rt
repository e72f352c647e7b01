//! Opening files, and finding out which file a path leads to.

pub(crate) mod identity;
pub(crate) mod opening;
pub(crate) mod placeholders;
