//! What is printed: reports and messages.

pub(crate) mod messages;
pub(crate) mod reports;
