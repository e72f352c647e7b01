//! Two names of one file, as DATA and as HASH: data is never overwritten.
use crate::program_runs::{check_end, check_opened, disk_of};
use fixtures::same;
use memory_runtime::{Disk, Kind};
use std::alloc::Global;
use std::io;
use std::test::Fail;

/// The kind of a file with the names `data` and `other`, and words.
const OVERLAPS: [(Kind, &str); 7] = [
    (Kind::Plain, "veritysetup format data data"),
    (Kind::Character, "veritysetup format data data"),
    (Kind::Plain, "veritysetup format data other"),
    (Kind::Block, "veritysetup format data other"),
    (
        Kind::Plain,
        "veritysetup format --hash-offset 7680 data other",
    ),
    (
        Kind::Plain,
        "veritysetup format --hash-offset 4096 --data-blocks 2 data data",
    ),
    (
        Kind::Plain,
        "veritysetup format --no-superblock --salt=- data other",
    ),
];

/// A disk with a file of a kind under the two names.
fn disk_of_overlaps(alloc: Global, kind: Kind) -> io::Result<Disk> {
    let disk = Disk::new(alloc);
    disk.make_kind("/", Kind::Folder, Vec::new(alloc))?;
    disk.make_kind("data", kind, [5; 8192].to_vec(alloc)?)?;
    disk.link("data", "other")?;
    Ok(disk)
}

#[test]
fn data_is_never_overwritten(rt: HostRuntime) -> Result<(), Fail> {
    for &(kind, words) in &OVERLAPS {
        let disk = disk_of_overlaps(rt.alloc(), kind)?;
        let end = (1, "Data area and hash area overlap.\n");
        same(words, check_end(rt.alloc(), &disk, words, end)?, false)?;
        check_opened(&disk, words, "data: read\n")?;
    }
    Ok(())
}

/// Words, the status and the message, and what is opened. Once DATA is opened, its name leads to the file else, and the
/// opened file has the name other alone.
const LED: [(&str, u8, &str, &str); 2] = [
    (
        "veritysetup format data other",
        1,
        "Data area and hash area overlap.\n",
        "data: read\n",
    ),
    (
        "veritysetup format data else",
        0,
        "",
        "data: read\nelse: read write\n",
    ),
];

/// A disk on which the name of DATA leads elsewhere once it is opened.
fn disk_of_led(alloc: Global) -> io::Result<Disk> {
    let disk = disk_of(alloc, &[5; 8192])?;
    disk.link("data", "other")?;
    disk.make("else", [6; 100].to_vec(alloc)?)?;
    disk.lead("data", "data", "else")?;
    Ok(disk)
}

#[test]
fn opened_data_is_known_whatever_its_name_leads_to(rt: HostRuntime) -> Result<(), Fail> {
    for &(words, status, message, opened) in &LED {
        let disk = disk_of_led(rt.alloc())?;
        check_end(rt.alloc(), &disk, words, (status, message))?;
        check_opened(&disk, words, opened)?;
        let other = disk.bytes_of("other")?;
        same(words, other.as_slice() == [5; 8192].as_slice(), true)?;
    }
    Ok(())
}
