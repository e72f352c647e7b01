//! Which file a path or an opened file is, so that two names of one file are recognized.
ghost use Rattle.std.specs.Prelude.{◌≡◌, ◌↔◌, ℕ, List, Option, None, false, IsSome, IsTrue};
ghost use Rattle.command_line.specs.FileIdentities.{PathsAreSameFile, identity_of};
ghost use Rattle.command_line.specs.declared.files.identity.FileIdentity.{FileIdentity};

use std::fs::{Metadata, OpenFile};
use std::os::unix::fs::{FileTypeExt, MetadataExt};
use std::rt::Files;

/// What identifies a file: two names of one file have equal values (stat(2), "st_dev", "st_ino", "st_rdev").
#[derive(Clone, Copy, Debug, PartialEq, Eq)]
pub enum FileIdentity {
    /// A regular file: the device that it lies on, and its number there.
    Regular { device: u64, inode: u64 },
    /// A block device: its number, the same for each node that names it.
    BlockDevice { number: u64 },
}

/// What the system says of a file (stat(2), "st_mode", "st_dev", "st_ino", "st_rdev").
#[derive(Clone, Copy, Debug, PartialEq, Eq)]
pub struct StatFields {
    /// Whether it is a regular file.
    pub is_regular: bool,
    /// Whether it is a block device.
    pub is_block_device: bool,
    /// The device that it lies on.
    pub device: u64,
    /// Its number there.
    pub inode: u64,
    /// The number of the device, if the file is one.
    pub number: u64,
}

impl StatFields {
    /// What a file's metadata say.
    pub fn of_metadata(metadata: &Metadata) -> StatFields {
        let kind = metadata.file_type();
        StatFields {
            is_regular: kind.is_file(),
            is_block_device: kind.is_block_device(),
            device: metadata.dev(),
            inode: metadata.ino(),
            number: metadata.rdev(),
        }
    }
}

impl FileIdentity {
    /// The identity of a file of which the system says this; `None` if it is neither a regular file nor a block device.
    pub fn of_stat(fields: &StatFields) -> Option<FileIdentity>
        ensures { result ≡ identity_of fields.now }
    {
        if fields.is_regular {
            Some(FileIdentity::Regular {
                device: fields.device,
                inode: fields.inode,
            })
        } else if fields.is_block_device {
            Some(FileIdentity::BlockDevice {
                number: fields.number,
            })
        } else {
            None
        }
    }

    /// The identity of a file with these metadata; `None` if it is neither a regular file nor a block device.
    pub fn of_metadata(metadata: &Metadata) -> Option<FileIdentity> {
        FileIdentity::of_stat(&StatFields::of_metadata(metadata))
    }
}

/// A runtime whose system says which file a path or an opened file is. Asking neither opens nor creates a file.
pub trait Identities: Files {
    /// Whether the system may give this answer for a path. Nothing is known of it, so a contract that speaks of it says
    /// that the system was asked.
    ghost path_is: { Self → List ℕ → Option FileIdentity → Type 0 } = { λ _ _ _. Unit {0} };

    /// The same for an opened file.
    ghost file_is: { Self → Self.File → Option FileIdentity → Type 0 } = { λ _ _ _. Unit {0} };

    /// The file that a path leads to, through symbolic links. `None` if there is none yet, if it is neither a regular
    /// file nor a block device, or if the system doesn't say.
    fn path_identity(&self, path: &str) -> Option<FileIdentity>
        ensures { path_is self.now path.now result };

    /// The file that was opened. `None` as for a path.
    fn file_identity(&self, file: &Self::File) -> Option<FileIdentity>
        ensures { file_is self.now file.now result };
}

impl Identities for HostRuntime {
    fn path_identity(&self, path: &str) -> Option<FileIdentity> {
        FileIdentity::of_metadata(&self.metadata(path).ok()?)
    }

    fn file_identity(&self, file: &Self::File) -> Option<FileIdentity> {
        FileIdentity::of_metadata(&file.metadata().ok()?)
    }
}

/// Whether the system says that two files are one.
pub fn are_same_file(one: Option<FileIdentity>, other: Option<FileIdentity>) -> bool
    ensures known { one ≡ None → result ≡ false }
    ensures same { IsTrue result → one ≡ other }
    ensures equal { IsSome one → one ≡ other → IsTrue result }
{
    one.is_some() && one == other
}

/// Whether two paths lead to one file: the paths are equal, or the system says that the file that was opened at the
/// first path is the one that the second path leads to.
pub fn paths_are_same_file(
    path: &str,
    other_path: &str,
    opened: Option<FileIdentity>,
    other: Option<FileIdentity>,
) -> bool
    ensures { IsTrue result ↔ PathsAreSameFile path.now other_path.now opened other }
{
    path == other_path || are_same_file(opened, other)
}
