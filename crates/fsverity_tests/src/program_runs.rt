//! The program fsverity over a runtime in memory, on a disk of some files: lengths that a file is said to have, and a
//! run with each option, over a file and over a block device.
use fixtures::{RunOutput, Shape, data, descriptor, same, with_zeros};
use fsverity::{ShownProgress, run_program};
use memory_runtime::{Disk, Kind, MemoryRuntime};
use sha2::{Digest as Hasher, Sha512};
use std::alloc::{AllocError, Global};
use std::io;
use std::test::Fail;
use verity_hash::Algorithm;

/// What a placeholder for a standard stream can be, in the order in which these are tried.
const PLACES: [(&str, Kind); 3] = [
    ("/", Kind::Folder),
    ("/proc", Kind::Folder),
    ("/dev/null", Kind::Character),
];

/// What is opened if the file two is the input file, and no other.
pub const TWO_READ: &str = "/: read\n/: read\n/: read\ntwo: read\n";

/// A quarter of a MiB.
const QUARTER: usize = 1 << 18;

/// The files of a disk: their names, kinds and lengths.
const FILES: [(&str, Kind, usize); 10] = [
    ("empty", Kind::Plain, 0),
    ("two", Kind::Plain, 4097),
    ("three", Kind::Plain, 384),
    ("other", Kind::Plain, 3000),
    ("block_device", Kind::Block, 384),
    ("small", Kind::Plain, QUARTER),
    ("large", Kind::Plain, QUARTER + 1),
    ("long", Kind::Plain, 4 * QUARTER + 100),
    ("folder", Kind::Folder, 0),
    ("second_folder", Kind::Folder, 0),
];

/// Names of files, and further names of the same files.
const LINKS: [(&str, &str); 6] = [
    ("two", "soft"),
    ("two", "hard"),
    ("other", "other_soft"),
    ("empty", "void"),
    ("empty", "nothing"),
    ("block_device", "node"),
];

/// A disk with the files.
pub fn disk(alloc: Global) -> io::Result<Disk> {
    disk_without(alloc, 0)
}

/// Makes the files of a disk, and their further names.
fn fill(alloc: Global, disk: &Disk) -> io::Result<()> {
    for &(name, kind, length) in &FILES {
        disk.make_kind(name, kind, data(alloc, length)?)?;
    }
    for &(name, other) in &LINKS {
        disk.link(name, other)?;
    }
    Ok(())
}

/// A disk with the files, but without so many of the places that are tried first for a placeholder.
pub fn disk_without(alloc: Global, places: usize) -> io::Result<Disk> {
    let disk = Disk::new(alloc);
    for &(name, kind) in PLACES.iter().skip(places) {
        disk.make_kind(name, kind, Vec::new(alloc))?;
    }
    fill(alloc, &disk)?;
    Ok(disk)
}

/// Runs the program.
pub fn output_of(alloc: Global, runtime: &MemoryRuntime<'_>) -> RunOutput {
    let mut out = Vec::new(alloc);
    let mut msgs = Vec::new(alloc);
    let progress = ShownProgress::new(runtime);
    let status = run_program(runtime, &progress, &mut out, &mut msgs);
    RunOutput { status, out, msgs }
}

/// Runs the program over a disk with the words of a command line.
pub fn run(alloc: Global, disk: &Disk, words: &str) -> RunOutput {
    output_of(alloc, &MemoryRuntime::new(alloc, disk, words))
}

/// Command lines of one file, one of them with output files.
const ENDS_FAR: [&str; 2] = [
    "fsverity digest three",
    "fsverity digest --out-merkle-tree t --out-descriptor d three",
];

/// The lengths that a file of 384 bytes is said to have, and the message.
const ENDS: [(u64, &str); 3] = [
    (
        385,
        "fsverity: file ends before the end of block 0: three.\n",
    ),
    (
        (1 << 32) + 384,
        "fsverity: file ends before the end of block 0: three.\n",
    ),
    (1 << 63, "fsverity: file is too large: three.\n"),
];

#[test]
fn a_length_is_taken_as_it_is_said(rt: HostRuntime) -> Result<(), Fail> {
    let alloc = rt.alloc();
    for &words in &ENDS_FAR {
        for &(end, message) in &ENDS {
            let disk = disk(alloc)?;
            disk.end_at("three", end)?;
            let output = run(alloc, &disk, words);
            let differs = output.differs(1, b"", message.as_bytes());
            same(format_args!("{words}, {end}"), differs, None)?;
        }
    }
    Ok(())
}

/// The tree and the descriptor of the file three, by SHA-512, with blocks of 128 bytes and a salt.
fn made_of_three(alloc: Global) -> Result<(Vec<u8>, Vec<u8>), AllocError> {
    let bytes = data(alloc, 384)?;
    let mut shape = Shape::new(alloc, Algorithm::Sha512, (128, 128), (2, 64));
    shape.before = with_zeros(alloc, &[&[0xab, 0xcd]], 128)?;
    let tree = shape.tree(alloc, bytes.as_slice(), 2)?;
    let root = tree.root.as_slice();
    let text = descriptor(alloc, &[1, 2, 7, 2], 384, root, &[0xab, 0xcd])?;
    Ok((tree.on_device(alloc, 0)?, text))
}

/// The options of the output files, whether they are given, and the input file, which is a file or a block device of
/// the same bytes.
const WITH_EACH_OPTION: [(&str, bool, &str); 4] = [
    (
        " --out-merkle-tree tree --out-descriptor=made",
        true,
        "three",
    ),
    (
        " --out-merkle-tree tree --out-descriptor=made",
        true,
        "block_device",
    ),
    ("", false, "three"),
    ("", false, "block_device"),
];

/// The line with the formatted digest of a descriptor alone.
fn formatted_line(alloc: Global, descriptor: &[u8]) -> Result<String, AllocError> {
    let digits = hex::encode(alloc, Sha512::digest(descriptor).as_slice())?;
    format!(in alloc; "465356657269747902004000{digits}\n")
}

/// The words of a command line with each option, for an input file and with these options of output files.
fn words_with(alloc: Global, name: &str, outputs: &str) -> Result<String, AllocError> {
    format!(in alloc;
        "fsverity digest --hash-alg=sha512 --block-size 0128 --salt abCD {name} --compact --for-builtin-sig{outputs}"
    )
}

/// What of a run isn't as expected, and whether it has output files and they hold these bytes.
fn outcome(
    alloc: Global,
    words: &str,
    line: &str,
    has_outputs: bool,
    (tree, descriptor): (&[u8], &[u8]),
) -> io::Result<(Option<&'static str>, bool)> {
    let disk = disk(alloc)?;
    let differs = run(alloc, &disk, words).differs(0, line.as_bytes(), b"");
    let is_made = has_outputs
        && disk.bytes_of("tree")?.as_slice() == tree
        && disk.bytes_of("made")?.as_slice() == descriptor;
    Ok((differs, is_made))
}

/// The tree file, the descriptor file, and the line with the formatted digest alone. Of a block device the system says
/// that its length is 0; it is found by seeking to its end.
#[test]
fn each_option_counts(rt: HostRuntime) -> Result<(), Fail> {
    let alloc = rt.alloc();
    let (tree, descriptor) = made_of_three(alloc)?;
    let line = formatted_line(alloc, descriptor.as_slice())?;
    let made = (tree.as_slice(), descriptor.as_slice());
    for &(outputs, has_outputs, name) in &WITH_EACH_OPTION {
        let words = words_with(alloc, name, outputs)?;
        let found = outcome(alloc, words.as_str(), line.as_str(), has_outputs, made)?;
        same(words, found, (None, has_outputs))?;
    }
    Ok(())
}
