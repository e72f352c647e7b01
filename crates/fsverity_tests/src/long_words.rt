//! Words of more than 1024 bytes, with ample memory: names of files, the values of options, and words that are refused.
use crate::program_runs::run;
use fixtures::{RunOutput, descriptor, same};
use fsverity::{DigestFault, digest_message};
use memory_runtime::{Disk, Kind};
use sha2::{Digest as Hasher, Sha256};
use std::alloc::{AllocError, Global};
use std::io;
use std::test::Fail;

/// A disk with the root folder and a file with one byte.
pub fn disk_with(alloc: Global, name: &str) -> io::Result<Disk> {
    let disk = Disk::new(alloc);
    disk.make_kind("/", Kind::Folder, Vec::new(alloc))?;
    disk.make(name, b"a".to_vec(alloc)?)?;
    Ok(disk)
}

/// Three texts, one after another.
pub fn joined(alloc: Global, first: &str, second: &str, third: &str) -> Result<String, AllocError> {
    format!(in alloc; "{first}{second}{third}")
}

/// The line of the file with one byte, under a name: its one block is the byte and zeros.
pub fn line_of(alloc: Global, name: &str) -> Result<String, AllocError> {
    let mut block = [0; 4096];
    block[0] = b'a';
    let root = Sha256::digest(block.as_slice());
    let descriptor = descriptor(alloc, &[1, 1, 12, 0], 1, &root, b"")?;
    let digits = hex::encode(alloc, Sha256::digest(descriptor.as_slice()).as_slice())?;
    format!(in alloc; "sha256:{digits} {name}\n")
}

/// Digests a file with the names of a tree's file and of a descriptor's.
fn run_with_outputs(
    alloc: Global,
    disk: &Disk,
    tree: &str,
    made: &str,
    name: &str,
) -> Result<RunOutput, AllocError> {
    let words = format!(in alloc;
        "fsverity digest --out-merkle-tree {tree} --out-descriptor {made} {name}"
    )?;
    Ok(run(alloc, disk, words.as_str()))
}

/// What isn't as expected of a run with names of a file, of a tree's file and of a descriptor's; whether the tree's is
/// made, and the length of the descriptor's.
fn digested(
    alloc: Global,
    [name, tree, made]: [&str; 3],
) -> io::Result<(Option<&'static str>, bool, usize)> {
    let disk = disk_with(alloc, name)?;
    let line = line_of(alloc, name)?;
    let output = run_with_outputs(alloc, &disk, tree, made, name)?;
    let differs = output.differs(0, line.as_bytes(), b"");
    Ok((differs, disk.has(tree)?, disk.bytes_of(made)?.len()))
}

/// The names of a file, of a tree's file and of a descriptor's are long.
#[test]
fn files_of_long_names_are_digested(rt: HostRuntime) -> Result<(), Fail> {
    let alloc = rt.alloc();
    let name = "f/ä".repeat(alloc, 1100)?;
    let tree = "t/ö".repeat(alloc, 1100)?;
    let made = "d/ü".repeat(alloc, 1100)?;
    let found = digested(alloc, [name.as_str(), tree.as_str(), made.as_str()])?;
    same("long names", found, (None, true, 256))
}

/// What comes before a long word on the command line and after it, the status, and the message, in which a star stands
/// for the word.
const REFUSED: [(&str, &str, u8, &str); 4] = [
    (
        "fsverity digest --hash-alg ",
        " f",
        2,
        "fsverity: unknown hash algorithm.\n",
    ),
    (
        "fsverity digest --block-size ",
        " f",
        2,
        "fsverity: block size is not valid.\n",
    ),
    (
        "fsverity digest --salt ",
        " f",
        2,
        "fsverity: salt is not valid.\n",
    ),
    ("fsverity digest ", "", 1, "fsverity: cannot open *.\n"),
];

#[test]
fn long_words_are_refused_with_their_messages(rt: HostRuntime) -> Result<(), Fail> {
    let alloc = rt.alloc();
    let disk = disk_with(alloc, "f")?;
    let long = "ab".repeat(alloc, 1100)?;
    for &(before, after, status, message) in &REFUSED {
        let words = joined(alloc, before, long.as_str(), after)?;
        let message = message.replace(alloc, "*", long.as_str())?;
        let output = run(alloc, &disk, words.as_str());
        let differs = output.differs(status, b"", message.as_bytes());
        same(before, differs, None)?;
    }
    Ok(())
}

/// The forms of a line, and whether it ends with the name.
const FORMS: [(&str, bool); 4] = [
    ("", true),
    ("--compact ", false),
    ("--for-builtin-sig ", true),
    ("--compact --for-builtin-sig ", false),
];

#[test]
fn a_long_name_stands_in_each_form(rt: HostRuntime) -> Result<(), Fail> {
    let alloc = rt.alloc();
    let name = "n".repeat(alloc, 1100)?;
    let disk = disk_with(alloc, name.as_str())?;
    let end = joined(alloc, " ", name.as_str(), "\n")?;
    for &(form, is_named) in &FORMS {
        let words = joined(alloc, "fsverity digest ", form, name.as_str())?;
        let output = run(alloc, &disk, words.as_str());
        let found = (
            output.status,
            output.out.ends_with(end.as_bytes()),
            output.msgs.len(),
        );
        same(form, found, (0, is_named, 0))?;
    }
    Ok(())
}

/// Faults with a long name, and what comes before the name.
const FAULTS: [(DigestFault, &str); 3] = [
    (DigestFault::TooLarge, "fsverity: file is too large: "),
    (
        DigestFault::SourceShort(7),
        "fsverity: file ends before the end of block 7: ",
    ),
    (
        DigestFault::SourceFailed(7),
        "fsverity: cannot read block 7: ",
    ),
];

#[test]
fn a_long_name_stands_in_each_message(rt: HostRuntime) -> Result<(), Fail> {
    let alloc = rt.alloc();
    let name = "n".repeat(alloc, 1100)?;
    for (fault, before) in &FAULTS {
        let text = digest_message(alloc, fault, name.as_str())?;
        let expected = joined(alloc, before, name.as_str(), ".\n")?;
        same(*before, text, expected)?;
    }
    Ok(())
}

#[test]
fn long_values_are_taken(rt: HostRuntime) -> Result<(), Fail> {
    let alloc = rt.alloc();
    let disk = disk_with(alloc, "f")?;
    let zeros = "0".repeat(alloc, 1100)?;
    let size = "fsverity digest --block-size ";
    let words = joined(alloc, size, zeros.as_str(), "4096 f")?;
    let line = line_of(alloc, "f")?;
    let output = run(alloc, &disk, words.as_str());
    same("a long size", output.differs(0, line.as_bytes(), b""), None)
}
