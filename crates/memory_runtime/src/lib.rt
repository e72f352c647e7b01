//! A runtime in memory, for tests of programs: the words of the command line, files by their names, random bytes, and
//! calls that fail. A test makes a disk, runs a program over it, and asks the disk what was opened and what its files
//! hold.
#![tactic(auto)]

mod call;
mod contents;
mod disk;
mod file;
mod kind;
mod runtime;
mod standard_error;
mod stored;

pub use call::Call;
pub use disk::Disk;
pub use file::MemoryFile;
pub use kind::Kind;
pub use runtime::MemoryRuntime;
pub use standard_error::StandardError;
