//! Which files the program fsverity opens, how and for how long; and names that lead elsewhere.
use crate::program_runs::{TWO_READ, disk, disk_without, run};
use fixtures::{RunOutput, data, same};
use memory_runtime::{Call, Disk};
use std::alloc::{AllocError, Global};
use std::io;
use std::test::Fail;

/// How many of the places for a placeholder aren't there, the placeholder then, command lines, their statuses, and what
/// is opened and closed while the placeholders are open.
const HELD: [(usize, &str, &str, u8, &str); 6] = [
    (0, "/", "fsverity digest two", 0, "open two\nclose two\n"),
    (
        0,
        "/",
        "fsverity digest two empty",
        0,
        "open two\nclose two\nopen empty\nclose empty\n",
    ),
    (
        0,
        "/",
        "fsverity digest two missing empty",
        1,
        "open two\nclose two\n",
    ),
    (
        0,
        "/",
        "fsverity digest --out-merkle-tree tree --out-descriptor made two",
        0,
        "open two\nopen tree\nopen made\nclose made\nclose tree\nclose two\n",
    ),
    (
        1,
        "/proc",
        "fsverity digest empty",
        0,
        "open empty\nclose empty\n",
    ),
    (
        2,
        "/dev/null",
        "fsverity digest empty",
        0,
        "open empty\nclose empty\n",
    ),
];

/// The status of a run over a disk without so many of the places for a placeholder, and what is opened and closed.
fn held_without(alloc: Global, places: usize, words: &str) -> io::Result<(u8, String)> {
    let disk = disk_without(alloc, places)?;
    let status = run(alloc, &disk, words).status;
    Ok((status, disk.held()?))
}

/// What is opened and closed, with the placeholders around it.
fn held_around(alloc: Global, held: &str, files: &str) -> Result<String, AllocError> {
    format!(in alloc;
        "open {held}\nopen {held}\nopen {held}\n{files}close {held}\nclose {held}\nclose {held}\n"
    )
}

#[test]
fn placeholders_are_open_to_the_end(rt: HostRuntime) -> Result<(), Fail> {
    let alloc = rt.alloc();
    for &(places, held, words, status, files) in &HELD {
        let found = held_without(alloc, places, words)?;
        same(words, found, (status, held_around(alloc, held, files)?))?;
    }
    Ok(())
}

/// Names after the first opening of which other names lead elsewhere: a name, and two more, of which the first leads to
/// the file of the second then. Then the words; the message, or nothing if the run ends with status 0; and what is
/// opened after the file two.
const LED: [(&[(&str, &str, &str)], &str, &str, &str); 4] = [
    // The file that was opened has the name hard, and its old name leads to another now.
    (
        &[("two", "two", "other")],
        "fsverity digest --out-descriptor hard two",
        "fsverity: cannot open hard.\n",
        "",
    ),
    (
        &[("two", "two", "other")],
        "fsverity digest --out-descriptor other two",
        "",
        "other: write truncate\n",
    ),
    // The tree's file has the name later as soon as it is made, and its old name leads to another.
    (
        &[("new", "later", "new"), ("new", "new", "other")],
        "fsverity digest --out-merkle-tree new --out-descriptor later two",
        "fsverity: cannot open later.\n",
        "new: write truncate\nnew: write truncate create\n",
    ),
    (
        &[("new", "new", "other")],
        "fsverity digest --out-merkle-tree new --out-descriptor other two",
        "",
        "new: write truncate\nnew: write truncate create\nother: write truncate\n",
    ),
];

/// Whether nothing was written, and whether the input file is as it was.
fn left_on(alloc: Global, disk: &Disk) -> io::Result<(bool, bool)> {
    let is_unwritten = disk.calls(Call::Write)? == 0;
    Ok((is_unwritten, disk.bytes_of("hard")? == data(alloc, 4097)?))
}

/// A run over a disk on which names lead elsewhere, what it opens, and how it leaves the disk.
fn run_led(
    alloc: Global,
    leads: &[(&str, &str, &str)],
    words: &str,
) -> io::Result<(RunOutput, String, (bool, bool))> {
    let disk = disk(alloc)?;
    for &(name, other, target) in leads {
        disk.lead(name, other, target)?;
    }
    let output = run(alloc, &disk, words);
    let left = left_on(alloc, &disk)?;
    Ok((output, disk.opened()?, left))
}

/// Compares a run over such a disk with what it is to say, open and leave.
fn check_led(
    alloc: Global,
    leads: &[(&str, &str, &str)],
    words: &str,
    text: &str,
    opened: &str,
) -> Result<(), Fail> {
    let (output, all, left) = run_led(alloc, leads, words)?;
    let after = all.as_str().strip_prefix(TWO_READ);
    let status = if text.is_empty() { 0 } else { 1 };
    let expected = (status, text.as_bytes(), Some(opened), (status == 1, true));
    let found = (output.status, output.msgs.as_slice(), after, left);
    same(words, found, expected)
}

/// Only an output file that was opened is written, and the input file stays.
#[test]
fn an_opened_file_is_known_whatever_its_name_leads_to(rt: HostRuntime) -> Result<(), Fail> {
    for &(leads, words, text, opened) in &LED {
        check_led(rt.alloc(), leads, words, text, opened)?;
    }
    Ok(())
}

/// A command line with both output files.
const BOTH_OUTPUTS: &str = "fsverity digest --out-merkle-tree tree --out-descriptor made two";

/// A new one has the usual permissions.
#[test]
fn output_files_are_opened_to_be_written_alone(rt: HostRuntime) -> Result<(), Fail> {
    let alloc = rt.alloc();
    let disk = disk(alloc)?;
    let status = run(alloc, &disk, BOTH_OUTPUTS).status;
    let opened = disk.opened()?;
    let after = opened.as_str().strip_prefix(TWO_READ);
    let expected = "tree: write truncate\ntree: write truncate create\n\
                    made: write truncate\nmade: write truncate create\n";
    same(BOTH_OUTPUTS, (status, after), (0, Some(expected)))
}

/// The number of the question that the system doesn't answer: of the input file, and of each output file. Then the
/// message.
const UNANSWERED: [(u64, &str); 3] = [(1, "fsverity: cannot open two.\n"), (2, ""), (3, "")];

/// A run in which a question isn't answered, and whether the descriptor's file is made.
fn run_unanswered(alloc: Global, number: u64) -> io::Result<(RunOutput, bool)> {
    let disk = disk(alloc)?;
    disk.fail(Call::Metadata, number)?;
    let output = run(alloc, &disk, BOTH_OUTPUTS);
    Ok((output, disk.has("made")?))
}

/// The input file may be a folder. An output file needn't be there, so it is opened.
#[test]
fn only_an_input_file_needs_the_system_to_say_what_it_is(rt: HostRuntime) -> Result<(), Fail> {
    for &(number, text) in &UNANSWERED {
        let (output, is_made) = run_unanswered(rt.alloc(), number)?;
        let found = (output.status, output.msgs.as_slice(), is_made);
        let status = if text.is_empty() { 0 } else { 1 };
        same(number, found, (status, text.as_bytes(), status == 0))?;
    }
    Ok(())
}
