//! The program over files in memory.
use fixtures::{Image, Report, RunOutput, same};
use memory_runtime::{Call, Disk, Kind, MemoryRuntime};
use std::alloc::Global;
use std::fmt::Display;
use std::io;
use std::test::Fail;
use veritysetup::{ShownProgress, run_program};

/// What is opened first.
const PLACEHOLDERS: &str = "/: read\n/: read\n/: read\n";

/// A disk with the root folder, the null device, the current folder and a file `data`.
pub fn disk_of(alloc: Global, data: &[u8]) -> io::Result<Disk> {
    let disk = Disk::new(alloc);
    disk.make_kind("/", Kind::Folder, Vec::new(alloc))?;
    disk.make_kind("/dev/null", Kind::Character, Vec::new(alloc))?;
    disk.make_kind(".", Kind::Folder, Vec::new(alloc))?;
    disk.make("data", data.to_vec(alloc)?)?;
    Ok(disk)
}

/// A disk as `disk_of` makes it, with these bytes in a file of this name and kind.
pub fn disk_with(alloc: Global, name: &str, kind: Kind, bytes: &[u8]) -> io::Result<Disk> {
    let disk = disk_of(alloc, &[])?;
    disk.make_kind(name, kind, bytes.to_vec(alloc)?)?;
    Ok(disk)
}

/// A disk as `disk_of` makes it, with 8192 bytes in `data` and in `hash.img`, on which the call of this kind and number
/// fails.
pub fn failing_disk(alloc: Global, call: Call, number: u64) -> io::Result<Disk> {
    let disk = disk_of(alloc, &[5; 8192])?;
    disk.make("hash.img", [0; 8192].to_vec(alloc)?)?;
    disk.fail(call, number)?;
    Ok(disk)
}

/// Runs the program.
pub fn output_of(alloc: Global, runtime: &MemoryRuntime<'_>) -> RunOutput {
    let mut out = Vec::new(alloc);
    let mut msgs = Vec::new(alloc);
    let progress = ShownProgress::new(runtime);
    let status = run_program(runtime, &progress, &mut out, &mut msgs);
    RunOutput { status, out, msgs }
}

/// Runs the program with these words, its name first.
pub fn run<'a>(alloc: Global, disk: &'a Disk, words: &'a str) -> RunOutput {
    output_of(alloc, &MemoryRuntime::new(alloc, disk, words))
}

/// Runs the program with these words and one more, if there is one.
pub fn run_with_last<'a>(
    alloc: Global,
    disk: &'a Disk,
    words: &'a str,
    last_word: Option<&'a [u8]>,
) -> RunOutput {
    let mut runtime = MemoryRuntime::new(alloc, disk, words);
    runtime.last_word = last_word;
    output_of(alloc, &runtime)
}

/// Runs the program with these words, which has to end with this status and these messages. The result is whether it
/// prints anything else.
pub fn check_end(alloc: Global, disk: &Disk, words: &str, end: (u8, &str)) -> Result<bool, Fail> {
    let output = run(alloc, disk, words);
    let found = (output.status, output.msgs.as_slice());
    same(words, found, (end.0, end.1.as_bytes()))?;
    Ok(!output.out.is_empty())
}

/// What is opened after the placeholders has to be this.
pub fn check_opened(disk: &Disk, at: &str, opened: &str) -> Result<(), Fail> {
    let all = disk.opened()?;
    same(at, all.as_str().strip_prefix(PLACEHOLDERS), Some(opened))
}

/// Runs a command with these words, which has to print this text.
fn check_printed<W: Display + Drop>(
    alloc: Global,
    disk: &Disk,
    command: &str,
    words: W,
    text: &str,
) -> Result<(), Fail> {
    let words = format!(in alloc; "veritysetup {command} {words}")?;
    let differs = run(alloc, disk, words.as_str()).differs(0, text.as_bytes(), b"");
    same(command, differs, None)
}

/// Runs format with these words, which has to print this report with this root hash.
pub fn check_format<W: Display + Drop>(
    alloc: Global,
    disk: &Disk,
    words: W,
    report: &Report<'_>,
    root: &[u8],
) -> Result<(), Fail> {
    let text = report.with_root(alloc, root)?;
    check_printed(alloc, disk, "format", words, text.as_str())
}

/// Runs dump and verify with these words, which have to print this report and nothing. The root hash is the last word
/// of verify.
pub fn check_stored<W: Display + Drop>(
    alloc: Global,
    disk: &Disk,
    (dump, verify): (&str, W),
    report: &Report<'_>,
    root: &[u8],
) -> Result<(), Fail> {
    let text = report.text(alloc)?;
    check_printed(alloc, disk, "dump", dump, text.as_str())?;
    let root = hex::encode(alloc, root)?;
    check_printed(alloc, disk, "verify", format_args!("{verify} {root}"), "")
}

/// Makes, dumps and verifies the image of the file `data` with these options. The hash device is the file that the
/// report names, and has to be that of the image.
pub fn check_image(
    alloc: Global,
    disk: &Disk,
    image: &Image,
    options: &str,
    data: &str,
    report: &Report<'_>,
) -> Result<(), Fail> {
    let (hash, root) = (report.path, image.root.as_slice());
    let words = format_args!("{options} {data} {hash}");
    check_format(alloc, disk, words, report, root)?;
    let words = (hash, format_args!("{data} {hash}"));
    check_stored(alloc, disk, words, report, root)?;
    let device = disk.bytes_of(hash)?;
    same(hash, device.as_slice(), image.device.as_slice())
}
