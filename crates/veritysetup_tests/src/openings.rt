//! The program over files in memory: which files it opens, in which order, what it syncs, and how long it holds each.
use crate::program_runs::{check_end, check_opened, disk_of, failing_disk, run};
use fixtures::same;
use memory_runtime::{Call, Disk, Kind};
use std::alloc::Global;
use std::io;
use std::test::Fail;

const PLACEHOLDERS_OPENED: &str = "open /\nopen /\nopen /\n";

const PLACEHOLDERS_CLOSED: &str = "close /\nclose /\nclose /\n";

/// The message for the folder, from which nothing is read.
const NOT_OPENED: &str = "Cannot open images.\n";

/// Words, what is opened after the placeholders, what is opened, synced and closed while these are open, and the status
/// and the message.
const RUNS: [(&str, &str, &str, u8, &str); 24] = [
    (
        "veritysetup format data hash",
        "data: read\nhash: read write\nhash: read write create\n.: read\n",
        "open data\nopen hash\nsync hash\nopen .\nsync .\nclose .\nclose hash\nclose data\n",
        0,
        "",
    ),
    (
        "veritysetup format --no-superblock --salt=- data hash",
        "data: read\nhash: read write\nhash: read write create\n.: read\n",
        "open data\nopen hash\nsync hash\nopen .\nsync .\nclose .\nclose hash\nclose data\n",
        0,
        "",
    ),
    (
        "veritysetup format data images/new",
        "data: read\nimages/new: read write\nimages/new: read write create\nimages: read\n",
        "open data\nopen images/new\nsync images/new\nopen images\nsync images\nclose images\nclose images/new\nclose data\n",
        0,
        "",
    ),
    // The folder of an old file isn't synced.
    (
        "veritysetup format data hash.img",
        "data: read\nhash.img: read write\n",
        "open data\nopen hash.img\nsync hash.img\nclose hash.img\nclose data\n",
        0,
        "",
    ),
    (
        "veritysetup format --data-blocks 3 data hash",
        "data: read\n",
        "open data\nclose data\n",
        4,
        "Data ends before the end of block 2.\n",
    ),
    (
        "veritysetup format --hash md5 data hash",
        "data: read\n",
        "open data\nclose data\n",
        1,
        "Unknown hash algorithm.\n",
    ),
    (
        "veritysetup format --format 2 data hash",
        "data: read\n",
        "open data\nclose data\n",
        1,
        "Hash type must be 0 or 1.\n",
    ),
    (
        "veritysetup format data data",
        "data: read\n",
        "open data\nclose data\n",
        1,
        "Data area and hash area overlap.\n",
    ),
    (
        "veritysetup format missing hash",
        "missing: read\n",
        "",
        4,
        "Cannot open missing.\n",
    ),
    // A folder is opened, but not read.
    (
        "veritysetup format images hash",
        "images: read\n",
        "open images\nclose images\n",
        4,
        NOT_OPENED,
    ),
    (
        "veritysetup format data images",
        "data: read\nimages: read write\n",
        "open data\nclose data\n",
        4,
        NOT_OPENED,
    ),
    (
        "veritysetup dump hash.img",
        "hash.img: read\n",
        "open hash.img\nclose hash.img\n",
        1,
        "No verity superblock.\n",
    ),
    (
        "veritysetup dump hash",
        "hash: read\n",
        "",
        4,
        "Cannot open hash.\n",
    ),
    (
        "veritysetup dump images",
        "images: read\n",
        "open images\nclose images\n",
        4,
        NOT_OPENED,
    ),
    (
        "veritysetup dump --hash-offset 1 hash.img",
        "",
        "",
        1,
        "Hash offset is not valid.\n",
    ),
    (
        "veritysetup verify data hash.img 00",
        "data: read\nhash.img: read\n",
        "open data\nopen hash.img\nclose hash.img\nclose data\n",
        1,
        "No verity superblock.\n",
    ),
    (
        "veritysetup verify data data 00",
        "data: read\ndata: read\n",
        "open data\nopen data\nclose data\nclose data\n",
        1,
        "No verity superblock.\n",
    ),
    (
        "veritysetup verify data hash ab",
        "data: read\nhash: read\n",
        "open data\nclose data\n",
        4,
        "Cannot open hash.\n",
    ),
    (
        "veritysetup verify missing hash.img ab",
        "missing: read\n",
        "",
        4,
        "Cannot open missing.\n",
    ),
    (
        "veritysetup verify images hash.img ab",
        "images: read\n",
        "open images\nclose images\n",
        4,
        NOT_OPENED,
    ),
    (
        "veritysetup verify data images ab",
        "data: read\nimages: read\n",
        "open data\nopen images\nclose images\nclose data\n",
        4,
        NOT_OPENED,
    ),
    (
        "veritysetup verify --hash-offset 1 data hash.img ab",
        "",
        "",
        1,
        "Hash offset is not valid.\n",
    ),
    (
        "veritysetup verify --no-superblock --salt=- data hash.img ab",
        "data: read\n",
        "open data\nclose data\n",
        1,
        "Root hash is not valid.\n",
    ),
    (
        "veritysetup verify --no-superblock --salt=- images hash.img ab",
        "images: read\n",
        "open images\nclose images\n",
        4,
        NOT_OPENED,
    ),
];

/// A disk with the files and the folder of these runs.
fn disk_of_runs(alloc: Global) -> io::Result<Disk> {
    let disk = disk_of(alloc, &[5; 8192])?;
    disk.make_kind("images", Kind::Folder, Vec::new(alloc))?;
    disk.make("hash.img", [0; 8192].to_vec(alloc)?)?;
    Ok(disk)
}

/// What is opened, synced and closed while the placeholders are open has to be this.
fn check_held(disk: &Disk, words: &str, held: &str) -> Result<(), Fail> {
    let all = disk.held()?;
    let found = all
        .as_str()
        .strip_prefix(PLACEHOLDERS_OPENED)
        .unwrap_or("")
        .strip_suffix(PLACEHOLDERS_CLOSED);
    same(words, found, Some(held))
}

/// Runs the program with these words, which has to end so, and to read nothing if that is wanted. Only a run that goes
/// through prints a report.
fn check_run(
    alloc: Global,
    disk: &Disk,
    words: &str,
    end: (u8, &str),
    is_unread: bool,
) -> Result<(), Fail> {
    let prints = check_end(alloc, disk, words, end)?;
    let reads = is_unread && disk.calls(Call::Read)? != 0;
    same(words, (prints, reads), (end.0 == 0, false))
}

#[test]
fn files_are_opened_and_held_in_order(rt: HostRuntime) -> Result<(), Fail> {
    for &(words, opened, held, status, message) in &RUNS {
        let disk = disk_of_runs(rt.alloc())?;
        let is_unread = message == NOT_OPENED;
        check_run(rt.alloc(), &disk, words, (status, message), is_unread)?;
        check_opened(&disk, words, opened)?;
        check_held(&disk, words, held)?;
    }
    Ok(())
}

/// Words, the number of the question that the system doesn't answer, and the message.
const UNANSWERED: [(&str, u64, &str); 5] = [
    ("veritysetup format data hash", 1, "Cannot open data.\n"),
    ("veritysetup dump hash.img", 1, "Cannot open hash.img.\n"),
    (
        "veritysetup verify data hash.img 00",
        1,
        "Cannot open data.\n",
    ),
    (
        "veritysetup verify data hash.img 00",
        2,
        "Cannot open hash.img.\n",
    ),
    (
        "veritysetup verify --no-superblock --salt=- data hash.img 00",
        1,
        "Cannot open data.\n",
    ),
];

/// It may be a folder.
#[test]
fn an_opened_file_of_which_the_system_says_nothing_is_refused(rt: HostRuntime) -> Result<(), Fail> {
    for &(words, number, message) in &UNANSWERED {
        let disk = failing_disk(rt.alloc(), Call::Metadata, number)?;
        check_run(rt.alloc(), &disk, words, (4, message), true)?;
        same(words, disk.has("hash")?, false)?;
    }
    Ok(())
}

#[test]
fn the_null_device_stands_for_the_root_folder(rt: HostRuntime) -> Result<(), Fail> {
    let alloc = rt.alloc();
    let disk = Disk::new(alloc);
    disk.make("data", [5; 8192].to_vec(alloc)?)?;
    disk.make_kind("/dev/null", Kind::Character, Vec::new(alloc))?;
    let status = run(alloc, &disk, "veritysetup format data hash").status;
    same("format", (status, disk.has("hash")?), (0, true))
}
