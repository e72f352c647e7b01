//! The progress line of long work: it is shown only on a terminal, and erased before anything else is written there.
use crate::program_runs::disk_of;
use fixtures::{is_plain, same, shown_before};
use memory_runtime::{Disk, MemoryRuntime, StandardError};
use std::alloc::Global;
use std::io;
use std::test::Fail;
use veritysetup::{ErasingWriter, ShownProgress, run_program};

/// A quarter of a MiB.
const QUARTER: usize = 1 << 18;

/// How many bytes of work pass before the line is written again.
const STEP: u64 = 1 << 16;

/// The status of a run whose report and messages go to one terminal, or, without a step, to one pipe, and what it
/// writes.
fn written(
    alloc: Global,
    disk: &Disk,
    words: &str,
    step: Option<u64>,
) -> io::Result<(u8, Vec<u8>)> {
    let before = disk.standard_error()?.len();
    let mut runtime = MemoryRuntime::new(alloc, disk, words);
    runtime.step = step;
    let progress = ShownProgress::new(&runtime);
    let mut out = ErasingWriter::new(&progress, StandardError::new(disk));
    let mut msgs = ErasingWriter::new(&progress, StandardError::new(disk));
    let status = run_program(&runtime, &progress, &mut out, &mut msgs);
    let all = disk.standard_error()?;
    let written = Vec::from_slice(alloc, all.get(before..).unwrap_or(&[]))?;
    Ok((status, written))
}

/// How a report begins.
const REPORT: &str = "VERITY header information for ";

/// How many hundredths are done after each 64 KiB of the first file of `disk_of_files`.
const OF_DATA: [u64; 4] = [24, 49, 73, 98];

/// The same of 256 blocks of 4096 bytes.
const OF_BLOCKS: [u64; 16] = [
    6, 12, 18, 25, 31, 37, 43, 50, 56, 62, 68, 75, 81, 87, 93, 100,
];

/// The same, up to there, of the second file.
const OF_LONG: [u64; 16] = [3, 6, 9, 12, 15, 18, 21, 24, 28, 31, 34, 37, 40, 43, 46, 49];

/// Words, the status of their run, the hundredths in its lines and of how many MiB, and how its other output begins.
type Row = (&'static str, u8, (&'static [u64], u64), &'static str);

/// Runs one after another. The files are those of `disk_of_files`, and those that earlier runs have made. The root
/// hashes are those of 65 and of 256 blocks of 4096 bytes that are all 5, as sha256sum gives them. The number of MiB
/// is that of the covered data, or, if a superblock says how much is covered, the length of DATA.
const RUNS: [Row; 9] = [
    (
        "veritysetup format --salt=- data hash",
        0,
        (&OF_DATA, 0),
        REPORT,
    ),
    (
        "veritysetup format --no-superblock --salt=- data bare",
        0,
        (&OF_DATA, 0),
        REPORT,
    ),
    (
        "veritysetup format --data-blocks 64 data new",
        0,
        (&[], 0),
        REPORT,
    ),
    (
        "veritysetup verify data hash 0e0e46f77feb0782af54de6ce5d5e6a7afd0e63af7343fb86d0211f7fdec0376",
        0,
        (&OF_DATA, 0),
        "",
    ),
    (
        "veritysetup verify --no-superblock --salt=- data bare 6881a5bf401df8c8bdfee1513551604b5bfd1ca11a663405395b6c1192552774",
        2,
        (&OF_DATA, 0),
        "Verification failed: root hash is 0e0e46f77feb0782af54de6ce5d5e6a7afd0e63af7343fb86d0211f7fdec0376.\n",
    ),
    (
        "veritysetup format --salt=- --data-blocks 256 long hash_long",
        0,
        (&OF_BLOCKS, 1),
        REPORT,
    ),
    (
        "veritysetup format --no-superblock --salt=- --data-blocks 256 long bare_long",
        0,
        (&OF_BLOCKS, 1),
        REPORT,
    ),
    (
        "veritysetup verify --no-superblock --salt=- --data-blocks 256 long bare_long 6881a5bf401df8c8bdfee1513551604b5bfd1ca11a663405395b6c1192552774",
        0,
        (&OF_BLOCKS, 1),
        "",
    ),
    (
        "veritysetup verify long hash_long 6881a5bf401df8c8bdfee1513551604b5bfd1ca11a663405395b6c1192552774",
        0,
        (&OF_LONG, 2),
        "",
    ),
];

/// A disk with data of a quarter of a MiB and a block, and with data of 2 MiB and a tail.
fn disk_of_files(alloc: Global) -> io::Result<Disk> {
    let data = vec![in alloc; 5u8; QUARTER + 4096]?;
    let disk = disk_of(alloc, data.as_slice())?;
    disk.make("long", vec![in alloc; 5u8; 8 * QUARTER + 100]?)?;
    Ok(disk)
}

/// A run to a terminal has to write the same as one to a pipe, after the progress lines.
fn check_shown(alloc: Global, disk: &Disk, row: Row) -> Result<(), Fail> {
    let (words, status, (hundredths, total), start) = row;
    let (piped, plain) = written(alloc, disk, words, None)?;
    let (ended, shown) = written(alloc, disk, words, Some(STEP))?;
    let is_plain = is_plain(plain.as_slice(), start);
    same(words, (piped, ended, is_plain), (status, status, true))?;
    let expected = shown_before(alloc, hundredths, total, plain.as_slice())?;
    same(words, shown, expected)
}

#[test]
fn a_terminal_is_told_how_far_it_is(rt: HostRuntime) -> Result<(), Fail> {
    let disk = disk_of_files(rt.alloc())?;
    for &row in &RUNS {
        check_shown(rt.alloc(), &disk, row)?;
    }
    // Each of the runs asks once whether standard error is a terminal.
    same("looks at standard error", disk.looks()?, 18)
}
