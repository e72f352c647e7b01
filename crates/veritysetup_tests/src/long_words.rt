//! Words of more than 1024 bytes, with ample memory: paths, the values of options, and words that are refused.
use crate::program_runs::{check_image, disk_of, disk_with, run_with_last};
use fixtures::{REPORT_17, Report, image_17, same};
use memory_runtime::Kind;
use std::alloc::{AllocError, Global};
use std::test::Fail;

/// How often what is long is repeated.
const MANY: usize = 1100;

/// The options of the image of 17 blocks, each number with many zeros before it. Only the salt and the UUID can't be
/// longer.
fn long_options(alloc: Global) -> Result<String, AllocError> {
    let zeros = "0".repeat(alloc, MANY)?;
    format!(in alloc;
        "--format {zeros}1 --data-block-size {zeros}512 --hash-block-size {zeros}512 --data-blocks {zeros}17 --hash-offset {zeros} --salt=- --uuid 00112233-4455-4677-8899-aabbccddeeff"
    )
}

/// The image of 17 blocks is made, dumped and verified under these names, with long options.
fn check_names(alloc: Global, data: &str, hash: &str) -> Result<(), Fail> {
    let image = image_17(alloc)?;
    let disk = disk_with(alloc, data, Kind::Plain, image.data.as_slice())?;
    let options = long_options(alloc)?;
    let report = Report {
        path: hash,
        ..REPORT_17
    };
    check_image(alloc, &disk, &image, options.as_str(), data, &report)
}

#[test]
fn long_names_and_values_are_taken(rt: HostRuntime) -> Result<(), Fail> {
    let alloc = rt.alloc();
    let data = "d/ä".repeat(alloc, MANY)?;
    let hash = "h/ü".repeat(alloc, MANY)?;
    check_names(alloc, data.as_str(), hash.as_str())
}

/// Commands that end before the long word and after it, and the message for it.
const REFUSED: [(&str, &str, &str); 9] = [
    ("format --hash ", " data hash", "Unknown hash algorithm.\n"),
    (
        "format --format ",
        " data hash",
        "Option --format is not a number.\n",
    ),
    (
        "format --data-block-size ",
        " data hash",
        "Option --data-block-size is not a number.\n",
    ),
    (
        "format --hash-block-size ",
        " data hash",
        "Option --hash-block-size is not a number.\n",
    ),
    (
        "format --data-blocks ",
        " data hash",
        "Option --data-blocks is not a number.\n",
    ),
    (
        "format --hash-offset ",
        " data hash",
        "Option --hash-offset is not a number.\n",
    ),
    ("format --salt ", " data hash", "Salt is not valid.\n"),
    ("format --uuid ", " data hash", "UUID is not valid.\n"),
    (
        "verify --no-superblock --salt=- data hash ",
        "",
        "Root hash is not valid.\n",
    ),
];

/// The program has to refuse these words, and one more if there is one, with this status and this message.
fn check_refused(
    alloc: Global,
    at: &str,
    (words, last_word): (&str, Option<&[u8]>),
    status: u8,
    message: &str,
) -> Result<(), Fail> {
    let disk = disk_of(alloc, &[5; 8192])?;
    let output = run_with_last(alloc, &disk, words, last_word);
    same(at, output.differs(status, b"", message.as_bytes()), None)
}

#[test]
fn long_values_are_refused_with_their_messages(rt: HostRuntime) -> Result<(), Fail> {
    let alloc = rt.alloc();
    let long = "ab".repeat(alloc, MANY)?;
    for &(before, after, message) in &REFUSED {
        let words = format!(in alloc; "veritysetup {before}{long}{after}")?;
        check_refused(alloc, before, (words.as_str(), None), 1, message)?;
    }
    Ok(())
}

#[test]
fn a_long_name_stands_in_the_message(rt: HostRuntime) -> Result<(), Fail> {
    let alloc = rt.alloc();
    let name = "long/".repeat(alloc, MANY)?;
    let words = format!(in alloc; "veritysetup format {name} hash")?;
    let message = format!(in alloc; "Cannot open {name}.\n")?;
    let words = (words.as_str(), None);
    check_refused(alloc, "a long name", words, 4, message.as_str())
}

#[test]
fn a_long_word_that_is_not_utf8_is_refused(rt: HostRuntime) -> Result<(), Fail> {
    let alloc = rt.alloc();
    let word = vec![in alloc; 0xff_u8; MANY]?;
    let escaped = "\\xff".repeat(alloc, MANY)?;
    let message = format!(in alloc; "error: argument 3 is not UTF-8: {escaped}\n")?;
    let words = ("veritysetup format data", Some(word.as_slice()));
    check_refused(alloc, "a long word", words, 1, message.as_str())
}
