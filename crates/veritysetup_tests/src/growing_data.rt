//! Data that grows while it is read, and data that is long.
use crate::program_runs::{disk_of, run, run_with_last};
use fixtures::{Image, image_17, same};
use memory_runtime::Disk;
use std::alloc::Global;
use std::io;
use std::test::Fail;

/// A disk with the hash device of an image, and its data, of which some bytes come later.
fn growing_disk(alloc: Global, image: &Image, length: usize) -> io::Result<Disk> {
    let disk = disk_of(alloc, image.data.get(..length).unwrap_or(&[]))?;
    disk.make("hash.img", image.device.to_vec(alloc)?)?;
    disk.grow("data", image.data.get(length..).unwrap_or(&[]))?;
    Ok(disk)
}

/// The words but for the root hash: with the superblock, and without it, with the options that it needs then.
const WORDS: [&str; 2] = [
    "veritysetup verify data hash.img",
    "veritysetup verify --no-superblock --hash-offset 512 --data-block-size 512 --hash-block-size 512 --salt=- --data-blocks 17 data hash.img",
];

/// The length at first, the status and the message.
type Row = (usize, u8, &'static str);

const LENGTHS: [Row; 3] = [
    (8704, 0, ""),
    (8192, 4, "Data ends before the end of block 16.\n"),
    (8191, 4, "Data ends before the end of block 15.\n"),
];

/// Verifies an image whose data grows. The run has to end so, and the data has to be whole then.
fn check_grown(alloc: Global, image: &Image, words: &str, row: Row) -> Result<(), Fail> {
    let (length, status, message) = row;
    let root = hex::encode(alloc, image.root.as_slice())?;
    let disk = growing_disk(alloc, image, length)?;
    let output = run_with_last(alloc, &disk, words, Some(root.as_bytes()));
    let differs = output.differs(status, b"", message.as_bytes());
    let grown = disk.bytes_of("data")?;
    let (at, found) = (format_args!("{words}, {length} bytes"), grown.as_slice());
    same(at, (differs, found), (None, image.data.as_slice()))
}

#[test]
fn bytes_that_come_later_are_no_data(rt: HostRuntime) -> Result<(), Fail> {
    let image = image_17(rt.alloc())?;
    for &words in &WORDS {
        for &row in &LENGTHS {
            check_grown(rt.alloc(), &image, words, row)?;
        }
    }
    Ok(())
}

/// The lengths that data of 8704 bytes is said to have, and the block of 512 bytes before whose end it ends. More
/// blocks are wanted in each case.
const ENDS: [(u64, &str); 3] = [
    (8704, "Data ends before the end of block 17.\n"),
    (
        (1 << 32) + 1024,
        "Data ends before the end of block 8388610.\n",
    ),
    (
        (1 << 53) + 511,
        "Data ends before the end of block 17592186044416.\n",
    ),
];

/// Format has to refuse data that is said to end here, and to make no file.
fn check_length(alloc: Global, data: &[u8], end: u64, message: &str) -> Result<(), Fail> {
    let disk = disk_of(alloc, data)?;
    disk.end_at("data", end)?;
    let words =
        "veritysetup format --salt=- --data-block-size 512 --data-blocks 17592186044417 data new";
    let differs = run(alloc, &disk, words).differs(4, b"", message.as_bytes());
    same(end, (differs, disk.has("new")?), (None, false))
}

#[test]
fn a_length_is_taken_as_it_is_said(rt: HostRuntime) -> Result<(), Fail> {
    let image = image_17(rt.alloc())?;
    for &(end, message) in &ENDS {
        check_length(rt.alloc(), image.data.as_slice(), end, message)?;
    }
    Ok(())
}
