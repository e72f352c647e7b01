//! More than 1000 files, with ample memory.
use crate::long_words::{disk_with, joined, line_of};
use crate::program_runs::{disk, output_of, run};
use fixtures::same;
use memory_runtime::{Disk, MemoryRuntime};
use std::alloc::{AllocError, Global};
use std::io;
use std::test::Fail;

/// What fsverity-utils prints for an empty file, up to its name, as docs/DEFINITIONS.md has it.
const DIGEST_OF_NONE: &str =
    "sha256:3d248ca542a24fc62d1c43b916eae5016878e2533c88238480b26128a1f1af95";

/// The lines of 1001 empty files, and of one with a byte.
fn lines_of_1002(alloc: Global) -> Result<String, AllocError> {
    let empty = [DIGEST_OF_NONE, " e\n"].concat(alloc)?;
    let empties = empty.as_str().repeat(alloc, 1001)?;
    let last = line_of(alloc, "f")?;
    [empties.as_str(), last.as_str()].concat(alloc)
}

/// 1001 empty files, and one with a byte.
#[test]
fn as_many_files_are_digested_as_there_are(rt: HostRuntime) -> Result<(), Fail> {
    let alloc = rt.alloc();
    let disk = disk_with(alloc, "f")?;
    disk.make("e", Vec::new(alloc))?;
    let names = " e".repeat(alloc, 1001)?;
    let words = joined(alloc, "fsverity digest", names.as_str(), " f")?;
    let lines = lines_of_1002(alloc)?;
    let output = run(alloc, &disk, words.as_str());
    same("1002 files", output.differs(0, lines.as_bytes(), b""), None)
}

/// What of a run with these names of files isn't as expected, and whether it opens what it should.
fn run_with_names<'a>(
    alloc: Global,
    disk: &'a Disk,
    names: &'a [String],
    lines: &str,
    opened: &str,
) -> io::Result<(Option<&'static str>, bool)> {
    let mut runtime = MemoryRuntime::new(alloc, disk, "fsverity digest");
    runtime.more_words = names;
    let differs = output_of(alloc, &runtime).differs(0, lines.as_bytes(), b"");
    Ok((differs, disk.opened()?.as_str() == opened))
}

/// Three names of one empty file, over and over.
const NAMES: [&str; 3] = ["empty", "void", "nothing"];

/// Adds a file's name, its line, and its opening.
fn add_file(
    alloc: Global,
    name: &str,
    names: &mut Vec<String>,
    lines: &mut String,
    opened: &mut String,
) -> Result<(), AllocError> {
    names.push(String::from_str(alloc, name)?)?;
    write!(lines, "{DIGEST_OF_NONE} {name}\n")?;
    write!(opened, "{name}: read\n")
}

/// Each is opened once, in the order of the names.
#[test]
fn each_of_5000_files_has_its_line(rt: HostRuntime) -> Result<(), Fail> {
    let alloc = rt.alloc();
    let mut names = Vec::new(alloc);
    let mut lines = String::new(alloc);
    let mut opened = String::from_str(alloc, "/: read\n/: read\n/: read\n")?;
    for number in 0..5_000usize {
        let name = NAMES[number % 3];
        add_file(alloc, name, &mut names, &mut lines, &mut opened)?;
    }
    let disk = disk(alloc)?;
    let names = names.as_slice();
    let found = run_with_names(alloc, &disk, names, lines.as_str(), opened.as_str())?;
    same("5000 files", (names.len(), found), (5_000, (None, true)))
}
