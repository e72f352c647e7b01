//! The kinds of files.

/// What a file is.
#[derive(Clone, Copy)]
pub enum Kind {
    /// A file of a file system.
    Plain,
    /// A block device, such as a disk.
    Block,
    /// A character device, such as the null device.
    Character,
    /// A folder, which can be opened for reading but not read.
    Folder,
}
