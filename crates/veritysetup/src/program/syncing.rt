//! Asking the system to keep a written HASH on the disk.
ghost use Rattle.std.specs.Prelude.{◌≡◌};
ghost use Rattle.veritysetup.specs.Program.Folders.{folder_of};

use std::fs::File;
use std::path::Path;
use std::rt::Files;
use verity_io::{Failed, FileDevice};

/// Whether the system doesn't say what is at this path. Either there is nothing, so a file that is made there is new;
/// or the system refuses to say, as where access is denied. If a file is there then, and can be opened all the same,
/// it counts as new too, and its folder is synced without need.
pub(crate) fn is_unknown<R: Files>(rt: &R, path: &str) -> bool {
    rt.metadata(path).is_err()
}

/// That the system has been asked to keep a hash device. Only `sync_hash_device` makes one.
#[derive(Clone, Copy)]
pub(crate) struct Synced {
    _asked: (),
}

/// Asks the system to keep what was written to the file at this path (fsync(2)) and, if the file is new, its name in
/// its folder. It fails if the system refuses.
pub(crate) fn sync_hash_device<R: Files>(
    rt: &R,
    device: &FileDevice<R::File>,
    path: &str,
    is_new: bool,
) -> Result<Synced, Failed> {
    device.sync()?;
    if is_new {
        sync_names(rt, folder_of(path))?;
    }
    Ok(Synced { _asked: () })
}

/// Asks the system to keep the names of a folder's files. It succeeds too if the folder may not be opened for reading.
fn sync_names<R: Files>(rt: &R, folder: &str) -> Result<(), Failed> {
    match File::open(rt, folder) {
        Ok(opened) => FileDevice::new(opened).sync(),
        Err(_) => Ok(()),
    }
}

/// The folder of a path's last name; for a name alone it is the current one.
fn folder_of(path: &str) -> &str
    ensures { result.now ≡ folder_of path.now }
{
    match Path::new(path).parent() {
        Some(folder) if !folder.as_str().is_empty() => folder.as_str(),
        _ => ".",
    }
}
