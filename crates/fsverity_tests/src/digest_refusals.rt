//! What the program fsverity refuses, which leaves all files as they are: words, options, and names of files.
use crate::program_runs::{TWO_READ, disk, output_of, run};
use fixtures::{RunOutput, same};
use memory_runtime::{Call, MemoryRuntime};
use std::alloc::Global;
use std::io;
use std::test::Fail;

/// The text of a command line without a command. It ends with the usage.
const NO_COMMAND: &str = "error: 'fsverity' requires a subcommand but one was not provided
  [subcommands: digest]

Usage: fsverity digest [--hash-alg NAME] [--block-size BYTES] [--salt HEX]
           [--compact] [--for-builtin-sig] [--out-merkle-tree FILE]
           [--out-descriptor FILE] FILE...
";

/// The text of a command line that ends without a value. The program adds the usage to clap's text.
const NO_VALUE: &str = "error: a value is required for '--salt <salt>' but none was supplied

Usage: fsverity digest [--hash-alg NAME] [--block-size BYTES] [--salt HEX]
           [--compact] [--for-builtin-sig] [--out-merkle-tree FILE]
           [--out-descriptor FILE] FILE...
";

/// What is opened if the block device is the input file, and no other.
const BLOCK_DEVICE_READ: &str = "/: read\n/: read\n/: read\nblock_device: read\n";

/// Command lines, the message, and what is opened: nothing, if the line or an option is refused with status 2. Of files
/// there are a missing one and a folder as the input file; an output file that is the input file, or the other output
/// file; a folder as an output file; a new file for both.
const REFUSED: [(&str, &str, &str); 17] = [
    ("fsverity", NO_COMMAND, ""),
    ("fsverity digest two --salt", NO_VALUE, ""),
    (
        "fsverity digest two --salt ab --salt ab",
        "error: the argument '--salt <salt>' cannot be used multiple times

Usage: fsverity digest [--hash-alg NAME] [--block-size BYTES] [--salt HEX]
           [--compact] [--for-builtin-sig] [--out-merkle-tree FILE]
           [--out-descriptor FILE] FILE...
",
        "",
    ),
    (
        "fsverity digest two --block-size 4095",
        "fsverity: block size is not valid.\n",
        "",
    ),
    (
        "fsverity digest --out-descriptor made two empty",
        "fsverity: output files need exactly one input file.\n",
        "",
    ),
    (
        "fsverity digest missing",
        "fsverity: cannot open missing.\n",
        "/: read\n/: read\n/: read\nmissing: read\n",
    ),
    (
        "fsverity digest folder",
        "fsverity: cannot open folder.\n",
        "/: read\n/: read\n/: read\nfolder: read\n",
    ),
    (
        "fsverity digest --out-merkle-tree two --out-descriptor made two",
        "fsverity: cannot open two.\n",
        TWO_READ,
    ),
    (
        "fsverity digest --out-merkle-tree other --out-descriptor soft two",
        "fsverity: cannot open soft.\n",
        TWO_READ,
    ),
    (
        "fsverity digest --out-descriptor soft --out-merkle-tree hard two",
        "fsverity: cannot open hard.\n",
        TWO_READ,
    ),
    (
        "fsverity digest --out-merkle-tree other_soft --out-descriptor other two",
        "fsverity: cannot open other.\n",
        TWO_READ,
    ),
    (
        "fsverity digest --out-descriptor other --out-merkle-tree other two",
        "fsverity: cannot open other.\n",
        TWO_READ,
    ),
    (
        "fsverity digest --out-merkle-tree folder --out-descriptor second_folder two",
        "fsverity: cannot open folder.\n",
        TWO_READ,
    ),
    (
        "fsverity digest --out-merkle-tree made --out-descriptor folder two",
        "fsverity: cannot open folder.\n",
        TWO_READ,
    ),
    (
        "fsverity digest --out-merkle-tree node block_device",
        "fsverity: cannot open node.\n",
        BLOCK_DEVICE_READ,
    ),
    (
        "fsverity digest --out-merkle-tree block_device --out-descriptor node two",
        "fsverity: cannot open node.\n",
        TWO_READ,
    ),
    (
        "fsverity digest --out-merkle-tree new --out-descriptor new two",
        "fsverity: cannot open new.\n",
        "/: read\n/: read\n/: read\ntwo: read\nnew: write truncate\nnew: write truncate create\n",
    ),
];

/// A run, what it opens, and how often it writes.
fn run_with_calls(alloc: Global, words: &str) -> io::Result<(RunOutput, String, u64)> {
    let disk = disk(alloc)?;
    let output = run(alloc, &disk, words);
    Ok((output, disk.opened()?, disk.calls(Call::Write)?))
}

/// No file changes: only a new one is opened to be written, and nothing is written to it.
#[test]
fn refusals_change_no_file(rt: HostRuntime) -> Result<(), Fail> {
    for &(words, text, opened) in &REFUSED {
        let (output, all, writes) = run_with_calls(rt.alloc(), words)?;
        let status = if opened.is_empty() { 2 } else { 1 };
        let differs = output.differs(status, b"", text.as_bytes());
        same(words, (differs, all.as_str(), writes), (None, opened, 0))?;
    }
    Ok(())
}

#[test]
fn a_word_that_is_not_utf8_is_refused(rt: HostRuntime) -> Result<(), Fail> {
    let alloc = rt.alloc();
    let disk = disk(alloc)?;
    let mut runtime = MemoryRuntime::new(alloc, &disk, "fsverity digest");
    runtime.last_word = Some(b"\xff");
    let text = b"error: argument 2 is not UTF-8: \\xff\n";
    let differs = output_of(alloc, &runtime).differs(2, b"", text);
    same("argument 2", (differs, disk.opened()?.as_str()), (None, ""))
}
