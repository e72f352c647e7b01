//! The paths of the files of format and verify.

/// The paths of the data file and of the hash device.
#[derive(Clone, Copy)]
pub(crate) struct FilePaths<'a> {
    /// DATA.
    pub(crate) data: &'a str,
    /// HASH.
    pub(crate) hash: &'a str,
}
