//! What a hash device is verified by.
ghost use Rattle.std.specs.Prelude.{◌≡◌};
ghost use Rattle.veritysetup.specs.Runs.VerifySteps.{superblock_offset};

use crate::options::settings::Settings;

/// What a hash device is verified by.
#[derive(Clone, Copy)]
pub enum VerifyInput<'a> {
    /// The superblock that stands on it, and the text of the root hash.
    Stored {
        /// The byte at which the superblock stands.
        offset: u64,
        /// As many hexadecimal digits, of either case, as the algorithm's digests have.
        root: &'a str,
    },
    /// Settings with a root hash, and no superblock (veritysetup(8), `--no-superblock`).
    Given(&'a Settings),
}

impl VerifyInput<'_> {
    /// The byte at which the superblock stands, if one is read.
    pub(crate) fn superblock_offset(&self) -> Option<u64>
        ensures { result ≡ superblock_offset self.now }
    {
        match *self {
            VerifyInput::Stored { offset, .. } => Some(offset),
            VerifyInput::Given(_) => None,
        }
    }
}
