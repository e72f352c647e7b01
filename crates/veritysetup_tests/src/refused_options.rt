//! The message of each option that is refused, whole, from a run of the program.
use crate::program_runs::{disk_of, run};
use fixtures::same;
use memory_runtime::Disk;
use std::alloc::Global;
use std::test::Fail;

const BAD_UUID: &str = "UUID is not valid.\n";

const BAD_SALT: &str = "Salt is not valid.\n";

const BAD_OFFSET: &str = "Hash offset is not valid.\n";

const NO_DATA: &str = "No data blocks.\n";

const TOO_LARGE: &str = "Data or hash area is too large.\n";

const BAD_ROOT: &str = "Root hash is not valid.\n";

/// Words after the program's name, and the message.
const REFUSED: [(&str, &str); 29] = [
    (
        "format --format 1x data hash",
        "Option --format is not a number.\n",
    ),
    (
        "format --data-block-size 512x data hash",
        "Option --data-block-size is not a number.\n",
    ),
    (
        "format --hash-block-size=- data hash",
        "Option --hash-block-size is not a number.\n",
    ),
    (
        "format --data-blocks '' data hash",
        "Option --data-blocks is not a number.\n",
    ),
    (
        "format --hash-offset 0x200 data hash",
        "Option --hash-offset is not a number.\n",
    ),
    ("format --hash md5 data hash", "Unknown hash algorithm.\n"),
    ("format --format 2 data hash", "Hash type must be 0 or 1.\n"),
    (
        "format --data-block-size 1000 data hash",
        "Option --data-block-size is not a valid block size.\n",
    ),
    (
        "format --hash-block-size 1048576 data hash",
        "Option --hash-block-size is not a valid block size.\n",
    ),
    ("format --salt abc data hash", BAD_SALT),
    ("format --salt xy data hash", BAD_SALT),
    ("format --uuid '' data hash", BAD_UUID),
    ("format --uuid - data hash", BAD_UUID),
    ("format --uuid random data hash", BAD_UUID),
    (
        "format --uuid 00112233-4455-4677-8899-aabbccddeef data hash",
        BAD_UUID,
    ),
    (
        "format --uuid 00112233-4455-4677-8899-aabbccddeeffa data hash",
        BAD_UUID,
    ),
    (
        "format --uuid 00112233-4455-4677-8899-aabbccddeefg data hash",
        BAD_UUID,
    ),
    (
        "format --salt=- --uuid 00112233445546778899aabbccddeeff0 data hash",
        BAD_UUID,
    ),
    ("format --hash-offset 511 data hash", BAD_OFFSET),
    (
        "format --no-superblock --salt=- --hash-offset 512 data hash",
        BAD_OFFSET,
    ),
    ("dump --hash-offset 513 hash", BAD_OFFSET),
    ("verify --hash-offset 1 data hash 00", BAD_OFFSET),
    ("format --data-blocks 0 data hash", NO_DATA),
    ("format --data-block-size 16384 data hash", NO_DATA),
    (
        "format --data-blocks 18446744073709551615 data hash",
        TOO_LARGE,
    ),
    (
        "format --hash-offset 9223372036854775296 data hash",
        TOO_LARGE,
    ),
    ("format data data", "Data area and hash area overlap.\n"),
    ("verify --no-superblock --salt=- data hash 00", BAD_ROOT),
    ("verify --no-superblock --salt=- data hash root", BAD_ROOT),
];

/// The program has to refuse these words with status 1 and this message, and to leave no hash device.
fn check_refused(alloc: Global, disk: &Disk, words: &str, message: &str) -> Result<(), Fail> {
    let line = format!(in alloc; "veritysetup {words}")?;
    let differs = run(alloc, disk, line.as_str()).differs(1, b"", message.as_bytes());
    same(words, (differs, disk.has("hash")?), (None, false))
}

#[test]
fn each_refused_option_has_its_message(rt: HostRuntime) -> Result<(), Fail> {
    let disk = disk_of(rt.alloc(), &[5; 8192])?;
    for &(words, message) in &REFUSED {
        check_refused(rt.alloc(), &disk, words, message)?;
    }
    Ok(())
}
