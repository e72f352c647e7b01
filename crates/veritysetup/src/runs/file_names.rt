//! The names of the files that a run is over.
ghost use Rattle.std.specs.Prelude.{◌≡◌};

use command_line::{MeasuredFile, OpenedFile};

/// The paths of an opened data file and an opened hash device, and the length of the data.
#[derive(Clone, Copy)]
pub(crate) struct FileNames<'p> {
    /// The path of the data.
    pub data: &'p str,
    /// How many bytes of data there are.
    pub length: u64,
    /// The path of the hash device.
    pub hash: &'p str,
}

impl<'p> FileNames<'p> {
    /// Those of these files.
    pub(crate) fn of<S, D>(data: &MeasuredFile<'p, S>, hash: &OpenedFile<'p, D>) -> FileNames<'p>
        ensures data { result.data ≡ data.now.opened.path }
        ensures length { result.length ≡ data.now.length }
        ensures hash { result.hash ≡ hash.now.path }
    {
        FileNames {
            data: data.opened().path(),
            length: data.length(),
            hash: hash.path(),
        }
    }
}
