//! The steps of a tree that is built as pieces of its data come.

pub(crate) mod pieces;
pub(crate) mod steps;
