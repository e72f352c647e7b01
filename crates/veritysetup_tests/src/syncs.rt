//! The hash device and the folder of a new one are synced.
use crate::program_runs::{check_opened, disk_of, failing_disk, run};
use fixtures::{RunOutput, same};
use memory_runtime::{Call, Disk, Kind};
use std::alloc::Global;
use std::test::Fail;

/// Paths of a new HASH, and the folder that is synced.
const FOLDERS: [(&str, &str); 11] = [
    ("./hash", "."),
    ("../hash", ".."),
    ("..hash", "."),
    ("images/hash", "images"),
    ("images/../hash", "images/.."),
    ("images/..hash", "images"),
    ("images/2/hash", "images/2"),
    ("../../images/hash", "../../images"),
    ("/hash", "/"),
    ("/images/hash", "/images"),
    ("/../images/../hash", "/../images/.."),
];

/// A new file at this path has to be opened, and its folder synced.
fn check_synced(alloc: Global, disk: &Disk, path: &str, folder: &str) -> Result<(), Fail> {
    let opened = format!(in alloc;
        "data: read\n{path}: read write\n{path}: read write create\n{folder}: read\n"
    )?;
    check_opened(disk, path, opened.as_str())?;
    let held = format!(in alloc; "\nopen {folder}\nsync {folder}\nclose {folder}\n")?;
    same(path, disk.held()?.as_str().contains(held.as_str()), true)
}

/// Makes a hash device at this path. Its folder has to be synced.
fn check_folder(alloc: Global, path: &str, folder: &str) -> Result<(), Fail> {
    let disk = disk_of(alloc, &[5; 8192])?;
    disk.make_kind(folder, Kind::Folder, Vec::new(alloc))?;
    let words = format!(in alloc; "veritysetup format data {path}")?;
    same(path, run(alloc, &disk, words.as_str()).status, 0)?;
    check_synced(alloc, &disk, path, folder)
}

#[test]
fn the_folder_of_a_new_file_is_synced(rt: HostRuntime) -> Result<(), Fail> {
    for &(path, folder) in &FOLDERS {
        check_folder(rt.alloc(), path, folder)?;
    }
    Ok(())
}

/// HASH, which is there or is new, and the number of the sync that fails: of the file, or of its folder.
const UNSYNCED: [(&str, u64); 3] = [("hash.img", 1), ("hash", 1), ("hash", 2)];

/// Runs format with this HASH. The sync of this number fails.
fn unsynced(alloc: Global, path: &str, number: u64) -> Result<RunOutput, Fail> {
    let disk = failing_disk(alloc, Call::Sync, number)?;
    let words = format!(in alloc; "veritysetup format data {path}")?;
    Ok(run(alloc, &disk, words.as_str()))
}

#[test]
fn a_hash_device_that_is_not_synced_is_a_fault(rt: HostRuntime) -> Result<(), Fail> {
    for &(path, number) in &UNSYNCED {
        let output = unsynced(rt.alloc(), path, number)?;
        let message = format!(in rt.alloc(); "Cannot write {path}.\n")?;
        let found = (output.status, output.msgs.as_slice());
        let at = format_args!("sync {number} of {path}");
        same(at, found, (4, message.as_bytes()))?;
    }
    Ok(())
}

/// HASH is there, and the system doesn't say so when it is asked. DATA is asked first, when it is opened.
#[test]
fn a_file_of_which_the_system_says_nothing_counts_as_new(rt: HostRuntime) -> Result<(), Fail> {
    let words = "veritysetup format data hash.img";
    let disk = failing_disk(rt.alloc(), Call::Metadata, 2)?;
    same(words, run(rt.alloc(), &disk, words).status, 0)?;
    let opened = "data: read\nhash.img: read write\n.: read\n";
    check_opened(&disk, words, opened)?;
    same("syncs", disk.calls(Call::Sync)?, 2)
}
