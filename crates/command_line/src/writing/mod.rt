//! Writing texts and messages.

pub(crate) mod messages;
pub(crate) mod print_fault;
