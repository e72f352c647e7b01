//! What is printed: lines and messages.

pub(crate) mod digest_line_writing;
pub(crate) mod digest_lines;
pub(crate) mod messages;
