//! Command lines that are refused, with which text.
use crate::program_runs::{disk_of, run_with_last};
use fixtures::same;
use memory_runtime::Disk;
use std::alloc::Global;
use std::test::Fail;
use veritysetup::{LineFault, read_words};

/// Words, one more word if there is one, and the message.
const REFUSED: [(&str, Option<&[u8]>, &str); 8] = [
    (
        "veritysetup open data hash",
        None,
        "error: unrecognized subcommand 'open'

Usage: veritysetup format [options] DATA HASH
       veritysetup dump [--hash-offset BYTES] HASH
       veritysetup verify [options] DATA HASH ROOT
",
    ),
    (
        "veritysetup format -s ab data hash",
        None,
        "error: unexpected argument '-s' found

  tip: to pass '-s' as a value, use '-- -s'

Usage: veritysetup format [--hash NAME] [--format TYPE] [--data-block-size BYTES]
           [--hash-block-size BYTES] [--data-blocks NUMBER] [--salt HEX] [--uuid UUID]
           [--hash-offset BYTES] [--no-superblock] DATA HASH
",
    ),
    (
        "veritysetup dump",
        None,
        "error: the following required arguments were not provided:
  <HASH>

Usage: veritysetup dump [--hash-offset BYTES] HASH
",
    ),
    (
        "veritysetup verify data hash 00 --salt",
        None,
        "error: a value is required for '--salt <salt>' but none was supplied

Usage: veritysetup verify [--hash NAME] [--format TYPE] [--data-block-size BYTES]
           [--hash-block-size BYTES] [--data-blocks NUMBER] [--salt HEX]
           [--hash-offset BYTES] [--no-superblock] DATA HASH ROOT
",
    ),
    (
        "veritysetup format data hash --salt",
        None,
        "error: a value is required for '--salt <salt>' but none was supplied

Usage: veritysetup format [--hash NAME] [--format TYPE] [--data-block-size BYTES]
           [--hash-block-size BYTES] [--data-blocks NUMBER] [--salt HEX] [--uuid UUID]
           [--hash-offset BYTES] [--no-superblock] DATA HASH
",
    ),
    (
        "veritysetup dump hash --hash-offset",
        None,
        "error: a value is required for '--hash-offset <hash-offset>' but none was supplied

Usage: veritysetup dump [--hash-offset BYTES] HASH
",
    ),
    (
        "veritysetup dump --hash-offset 512 --hash-offset 512 hash",
        None,
        "error: the argument '--hash-offset <hash-offset>' cannot be used multiple times

Usage: veritysetup dump [--hash-offset BYTES] HASH
",
    ),
    (
        "veritysetup format data",
        Some(b"\xff"),
        "error: argument 3 is not UTF-8: \\xff\n",
    ),
];

/// Whether a line without any word, even the program's name, is refused.
fn is_refused_without_words(alloc: Global) -> bool {
    matches!(read_words(alloc, &[]), Err(LineFault::Refused(_)))
}

/// The program has to refuse each of these lines.
fn check_all_refused(alloc: Global, disk: &Disk) -> Result<(), Fail> {
    for &(words, last_word, message) in &REFUSED {
        let output = run_with_last(alloc, disk, words, last_word);
        same(words, output.differs(1, b"", message.as_bytes()), None)?;
    }
    Ok(())
}

#[test]
fn refused_words_open_no_file(rt: HostRuntime) -> Result<(), Fail> {
    let alloc = rt.alloc();
    same("no words", is_refused_without_words(alloc), true)?;
    let disk = disk_of(alloc, &[5; 8192])?;
    check_all_refused(alloc, &disk)?;
    same("what is opened", disk.opened()?.as_str(), "")
}
