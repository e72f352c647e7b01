//! File digests of fs-verity, made without the kernel: the command line, the options, the digest of a file, its line,
//! the runs over files, and the program.
#![tactic(auto)]

mod fault;
pub mod laws;
mod openers;
mod options;
mod program;
mod runs;
mod texts;
mod words;

pub use command_line::{ErasingWriter, LineFault, ShownProgress};
pub use openers::file_opener::FileOpener;
pub use openers::fused_opener::FusedOpener;
pub use openers::memory_opener::MemoryOpener;
pub use openers::opener::Opener;
pub use options::digest_options::DigestOptions;
pub use options::option_fault::FsOptionFault;
pub use options::settings::digest_settings;
pub use program::entry::run_program;
pub use runs::digest::run_digest;
pub use runs::digest_fault::DigestFault;
pub use runs::file_digest::{FileDigest, digest_file, digest_file_with_tree};
pub use runs::outputs::run_digest_to;
pub use texts::digest_lines::{Form, digest_line};
pub use texts::messages::{digest_message, option_message};
pub use words::line::Line;
pub use words::reading::read_words;
