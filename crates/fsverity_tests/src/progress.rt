//! The progress line of long work: it is shown only on a terminal, and erased before anything else is written there
//! and in the end.
use crate::program_runs::disk;
use fixtures::{is_plain, same, shown_before};
use fsverity::{ErasingWriter, ShownProgress, run_program};
use memory_runtime::{Call, Disk, MemoryRuntime, StandardError};
use std::alloc::Global;
use std::io;
use std::test::Fail;

/// How many bytes of work pass before the line is written again.
const STEP: u64 = 1 << 16;

/// A command line, the write that fails, and whether its lines go elsewhere, by a writer of their own.
type Run = (&'static str, u64, bool);

/// What a run writes to a terminal, or, without a step, to a pipe: its messages, and its lines if they don't go
/// elsewhere. Then how often it is asked whether this is a terminal, and whether the run ends with status 0 and a line
/// if the lines go elsewhere.
fn written(alloc: Global, run: Run, step: Option<u64>) -> io::Result<(Vec<u8>, u64, bool)> {
    let (words, failing, is_elsewhere) = run;
    let disk = disk(alloc)?;
    disk.fail(Call::Write, failing)?;
    let mut runtime = MemoryRuntime::new(alloc, &disk, words);
    runtime.step = step;
    let is_done = run_done(alloc, &disk, &runtime, is_elsewhere);
    Ok((disk.standard_error()?, disk.looks()?, is_done))
}

/// Runs the program, which writes to standard error. If its lines go elsewhere, the result is whether it ends with
/// status 0 and a line there; otherwise it is true.
fn run_done(alloc: Global, disk: &Disk, runtime: &MemoryRuntime<'_>, is_elsewhere: bool) -> bool {
    let progress = ShownProgress::new(runtime);
    let mut msgs = ErasingWriter::new(&progress, StandardError::new(disk));
    let mut lines = Vec::new(alloc);
    let status = if is_elsewhere {
        run_program(runtime, &progress, &mut lines, &mut msgs)
    } else {
        let mut out = ErasingWriter::new(&progress, StandardError::new(disk));
        run_program(runtime, &progress, &mut out, &mut msgs)
    };
    !is_elsewhere || status == 0 && lines.starts_with(b"sha256:")
}

/// How many hundredths are done after each 64 KiB of the file large.
const OF_LARGE: [u64; 4] = [24, 49, 74, 99];

/// The same of the file long.
const OF_LONG: [u64; 16] = [
    6, 12, 18, 24, 31, 37, 43, 49, 56, 62, 68, 74, 81, 87, 93, 99,
];

/// Runs, the hundredths in their lines and of how many MiB, and how their other output begins.
const RUNS: [(Run, (&[u64], u64), &str); 9] = [
    (("fsverity digest small", 0, false), (&[], 0), "sha256:"),
    (("fsverity digest long", 0, false), (&OF_LONG, 1), "sha256:"),
    (
        ("fsverity digest large missing", 0, false),
        (&OF_LARGE, 0),
        "sha256:",
    ),
    (
        ("fsverity digest large --out-descriptor made", 0, false),
        (&OF_LARGE, 0),
        "sha256:",
    ),
    (
        (
            "fsverity digest large --block-size 512 --out-merkle-tree made",
            9,
            false,
        ),
        (&[24], 0),
        "fsverity: cannot write tree block 8 of level 0.\n",
    ),
    (("fsverity digest two empty", 0, false), (&[], 0), "sha256:"),
    (("fsverity digest large", 0, true), (&OF_LARGE, 0), ""),
    (("fsverity digest empty large", 0, true), (&OF_LARGE, 0), ""),
    (
        ("fsverity digest large --out-descriptor made", 0, true),
        (&OF_LARGE, 0),
        "",
    ),
];

/// Whether what a run writes to a pipe begins so, without a progress line, and what a terminal gets then.
fn expected_of(
    alloc: Global,
    run: Run,
    hundredths: &[u64],
    total: u64,
    start: &str,
) -> io::Result<(bool, Vec<u8>)> {
    let (plain, _, _) = written(alloc, run, None)?;
    let expected = shown_before(alloc, hundredths, total, plain.as_slice())?;
    Ok((is_plain(plain.as_slice(), start), expected))
}

/// Compares what a run writes to a terminal with what it is to be told.
fn check_told(
    alloc: Global,
    run: Run,
    hundredths: &[u64],
    total: u64,
    start: &str,
) -> Result<(), Fail> {
    let (is_told_plainly, expected) = expected_of(alloc, run, hundredths, total, start)?;
    let (shown, looks, is_done) = written(alloc, run, Some(STEP))?;
    let found = (is_told_plainly, is_done, looks, shown);
    same(run.0, found, (true, true, 1, expected))
}

#[test]
fn a_terminal_is_told_how_far_it_is(rt: HostRuntime) -> Result<(), Fail> {
    for &(run, (hundredths, total), start) in &RUNS {
        check_told(rt.alloc(), run, hundredths, total, start)?;
    }
    Ok(())
}
