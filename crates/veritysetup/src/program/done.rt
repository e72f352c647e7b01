//! What a command of a line has done.

use crate::program::syncing::Synced;
use crate::runs::completed::Completed;
use crate::runs::dump::Dumped;
use crate::runs::file_names::FileNames;
use crate::runs::format::Formatted;
use crate::runs::verify::Verified;

/// What a command of a line has done.
#[derive(Drop)]
pub(crate) enum Done<'p> {
    /// A hash device is made, and the system was asked to keep it.
    Formatted(Formatted<FileNames<'p>>, Synced),
    /// A superblock is printed.
    Dumped(Dumped<'p>),
    /// A hash device is verified.
    Verified(Verified<FileNames<'p>>),
}

impl Completed for Done<'_> {}
