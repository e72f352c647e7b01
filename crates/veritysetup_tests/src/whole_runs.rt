//! Whole runs of each command over files in memory: of a small image, in a file and on a block device, and of one with
//! the largest blocks, the longest salt and the longest path.
use crate::program_runs::{check_format, check_image, check_stored, disk_of, disk_with};
use fixtures::{Image, REPORT_17, Report, image_17, image_of, same, with_zeros};
use memory_runtime::{Disk, Kind};
use std::alloc::Global;
use std::io;
use std::test::Fail;

/// The options of the small image.
const SMALL: &str =
    "--data-block-size 512 --hash-block-size 512 --salt=- --uuid 00112233-4455-4677-8899-aabbccddeeff";

/// The small image is made, dumped and verified, of data in a file of a kind.
fn check_small(alloc: Global, kind: Kind) -> Result<(), Fail> {
    let image = image_17(alloc)?;
    let disk = disk_with(alloc, "data", kind, image.data.as_slice())?;
    disk.make("hash.img", Vec::new(alloc))?;
    check_image(alloc, &disk, &image, SMALL, "data", &REPORT_17)
}

#[test]
fn a_small_image_is_made_dumped_and_verified(rt: HostRuntime) -> Result<(), Fail> {
    check_small(rt.alloc(), Kind::Plain)
}

/// The system says of it that its length is 0; it is found by seeking to its end.
#[test]
fn an_image_of_a_block_device_is_made_dumped_and_verified(rt: HostRuntime) -> Result<(), Fail> {
    check_small(rt.alloc(), Kind::Block)
}

/// A disk with the data of an image, and other bytes after it in the same file.
fn disk_of_one_file(alloc: Global, image: &Image) -> io::Result<Disk> {
    let data = with_zeros(alloc, &[image.data.as_slice(), &[77; 1000]], 0)?;
    disk_of(alloc, data.as_slice())
}

/// The image of this root hash is made, dumped and verified in one file, which has to hold these bytes then.
fn check_one_file(alloc: Global, disk: &Disk, root: &[u8], whole: &[u8]) -> Result<(), Fail> {
    let report = Report {
        path: "data",
        ..REPORT_17
    };
    let words = format_args!("{SMALL} --data-blocks 17 --hash-offset 8704 data data");
    check_format(alloc, disk, words, &report, root)?;
    same("data", disk.bytes_of("data")?.as_slice(), whole)?;
    let words = ("--hash-offset 8704 data", "--hash-offset 8704 data data");
    check_stored(alloc, disk, words, &report, root)
}

/// The hash area begins after the data that is covered, over other bytes.
#[test]
fn data_and_hash_area_may_be_in_one_file(rt: HostRuntime) -> Result<(), Fail> {
    let alloc = rt.alloc();
    let image = image_17(alloc)?;
    let disk = disk_of_one_file(alloc, &image)?;
    let whole = with_zeros(alloc, &[image.data.as_slice(), image.device.as_slice()], 0)?;
    check_one_file(alloc, &disk, image.root.as_slice(), whole.as_slice())
}

/// The largest image is made, dumped and verified with this path and this salt.
fn check_largest<'a>(alloc: Global, path: &'a str, salt: &'a str) -> Result<(), Fail> {
    let report = Report {
        path,
        blocks: 2,
        sizes: (524_288, 524_288),
        salt,
        ..REPORT_17
    };
    let options = format!(in alloc;
        "--data-block-size 524288 --hash-block-size 524288 --salt {salt} --uuid 00112233-4455-4677-8899-aabbccddeeff"
    )?;
    let image = image_of(alloc, 524_288, &[0xab; 256], 2, 1)?;
    let disk = disk_of(alloc, image.data.as_slice())?;
    disk.make(path, Vec::new(alloc))?;
    check_image(alloc, &disk, &image, options.as_str(), "data", &report)
}

#[test]
fn the_largest_image_is_made_dumped_and_verified(rt: HostRuntime) -> Result<(), Fail> {
    let alloc = rt.alloc();
    let path = "a/ü".repeat(alloc, 1024)?;
    let salt = hex::encode(alloc, &[0xab; 256])?;
    check_largest(alloc, path.as_str(), salt.as_str())
}
