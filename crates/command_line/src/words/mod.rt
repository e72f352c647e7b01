//! The words of the command line, and the arguments that clap reads.

pub(crate) mod arguments;
pub(crate) mod borrowed;
pub(crate) mod copies;
pub(crate) mod line_fault;
pub(crate) mod system_words;
pub(crate) mod word_list;
