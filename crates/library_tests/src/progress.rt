//! What the progress line counts, and what it says of the time, with a clock and without.
use command_line::{ProgressReader, ProgressRuntime, ShownProgress};
use fixtures::same;
use memory_runtime::{Disk, MemoryRuntime};
use std::alloc::Global;
use std::fmt::Display;
use std::io;
use std::io::{Eprint, ErrorKind, Read};
use std::test::Fail;
use std::time::{Clock, Duration};

/// A MiB.
const MIB: usize = 1 << 20;

/// A reader that never ends. Each read gives at most 2 MiB, and leaves the buffer as it is; the fourth one is
/// interrupted.
#[derive(Drop)]
struct ShortReads {
    reads: u64,
}

impl Read for ShortReads {
    fn read(&mut self, buf: &mut [u8]) -> io::Result<usize> {
        self.reads = self.reads.saturating_add(1);
        if self.reads == 4 {
            return Err(io::Error::from(ErrorKind::Interrupted));
        }
        Ok(buf.len().min(2 * MIB))
    }
}

/// Reads this many times from a reader of 20 MiB, with a buffer of 6 MiB.
fn read<R: ProgressRuntime>(alloc: Global, runtime: &R, count: usize) -> io::Result<()> {
    let progress = ShownProgress::new(runtime);
    let mut reader = ProgressReader::new(ShortReads { reads: 0 }, 20 << 20, &progress);
    let mut buffer = vec![in alloc; 0u8; 6 * MIB]?;
    for _ in 0..count {
        // An interrupted read is no progress.
        let _ = reader.read(buffer.as_mut_slice());
    }
    Ok(())
}

/// What a terminal gets during nine reads, if the line comes every 3 MiB: 2 MiB are read at a time, and none by the
/// fourth. Half a second passes between two readings of the clock.
const LINES: &str =
    "\r20%, 4 of 20 MiB, 8 MiB/s\x1b[K\r40%, 8 of 20 MiB, 8 MiB/s\x1b[K\r60%, 12 of 20 MiB, 8 MiB/s\x1b[K\r80%, 16 of 20 MiB, 8 MiB/s\x1b[K";

#[test]
fn bytes_that_were_read_are_counted(rt: HostRuntime) -> Result<(), Fail> {
    let alloc = rt.alloc();
    let disk = Disk::new(alloc);
    let mut runtime = MemoryRuntime::new(alloc, &disk, "");
    runtime.step = Some(3 << 20);
    read(alloc, &runtime, 9)?;
    let shown = disk.standard_error()?;
    same("the line", shown.as_slice(), LINES.as_bytes())
}

/// A reader that never ends, and leaves the buffer as it is.
#[derive(Drop)]
struct Endless;

impl Read for Endless {
    fn read(&mut self, buf: &mut [u8]) -> io::Result<usize> {
        Ok(buf.len())
    }
}

/// What a terminal gets during the reading of 5000 MiB, if the line comes every 1200 MiB.
const LARGE_LINES: &str =
    "\r24%, 1200 of 5000 MiB, 2400 MiB/s\x1b[K\r48%, 2400 of 5000 MiB, 2400 MiB/s\x1b[K\r72%, 3600 of 5000 MiB, 2400 MiB/s\x1b[K\r96%, 4800 of 5000 MiB, 2400 MiB/s\x1b[K";

/// How many bytes are read of 5000 MiB, which are stored nowhere, 8 MiB in each call.
fn read_large(alloc: Global, runtime: &MemoryRuntime<'_>) -> io::Result<usize> {
    let progress = ShownProgress::new(runtime);
    let mut reader = ProgressReader::new(Endless, 5000 << 20, &progress);
    let mut buffer = vec![in alloc; 0u8; 8 << 20]?;
    let mut length = 0_usize;
    for _ in 0..625 {
        length = length.saturating_add(reader.read(buffer.as_mut_slice())?);
    }
    Ok(length)
}

#[test]
fn more_than_four_gib_are_shown_in_mib(rt: HostRuntime) -> Result<(), Fail> {
    let alloc = rt.alloc();
    let disk = Disk::new(alloc);
    let mut runtime = MemoryRuntime::new(alloc, &disk, "");
    runtime.step = Some(1200 << 20);
    let length = read_large(alloc, &runtime)?;
    let shown = disk.standard_error()?;
    let found = (length, shown.as_slice());
    same("5000 MiB", found, (5000 << 20, LARGE_LINES.as_bytes()))
}

/// A runtime over a disk, whose clock goes on by so many milliseconds at each reading, and can be read this many times
/// and no more.
#[derive(Drop)]
struct OddClock<'a> {
    runtime: MemoryRuntime<'a>,
    disk: &'a Disk,
    millis: u64,
    readings: u64,
}

impl Clock for OddClock<'_> {
    fn monotonic(&self) -> io::Result<Duration> {
        if self.disk.clock_reads()? >= self.readings {
            return Err(io::Error::from(ErrorKind::Unsupported));
        }
        self.runtime.monotonic()?;
        let reads = self.disk.clock_reads()?;
        Ok(Duration::from_millis(reads.saturating_mul(self.millis)))
    }

    fn since_1970(&self) -> io::Result<Duration> {
        Err(io::Error::from(ErrorKind::Unsupported))
    }
}

impl Eprint for OddClock<'_> {
    fn eprint<D: Display + Drop>(&self, value: D) -> io::Result<()> {
        self.runtime.eprint(value)
    }

    fn eprintln<D: Display + Drop>(&self, value: D) -> io::Result<()> {
        self.runtime.eprintln(value)
    }
}

impl ProgressRuntime for OddClock<'_> {
    fn step(&self) -> Option<u64> {
        Some(3 << 20)
    }
}

/// By how many milliseconds the clock goes on, how often it can be read, and what a terminal gets during nine reads:
/// without a clock, or if it fails later, the line has no rate, and from ten seconds on it has the time left.
const CLOCKS: [(u64, u64, &str); 6] = [
    (
        500,
        0,
        "\r20%, 4 of 20 MiB\x1b[K\r40%, 8 of 20 MiB\x1b[K\r60%, 12 of 20 MiB\x1b[K\r80%, 16 of 20 MiB\x1b[K",
    ),
    (
        500,
        2,
        "\r20%, 4 of 20 MiB, 8 MiB/s\x1b[K\r40%, 8 of 20 MiB\x1b[K\r60%, 12 of 20 MiB\x1b[K\r80%, 16 of 20 MiB\x1b[K",
    ),
    (
        9_999,
        9,
        "\r20%, 4 of 20 MiB, 0 MiB/s\x1b[K\r40%, 8 of 20 MiB, 0 MiB/s, 0:29 left\x1b[K\r60%, 12 of 20 MiB, 0 MiB/s, 0:19 left\x1b[K\r80%, 16 of 20 MiB, 0 MiB/s, 0:09 left\x1b[K",
    ),
    (
        10_000,
        9,
        "\r20%, 4 of 20 MiB, 0 MiB/s, 0:40 left\x1b[K\r40%, 8 of 20 MiB, 0 MiB/s, 0:30 left\x1b[K\r60%, 12 of 20 MiB, 0 MiB/s, 0:20 left\x1b[K\r80%, 16 of 20 MiB, 0 MiB/s, 0:10 left\x1b[K",
    ),
    (
        900_000,
        9,
        "\r20%, 4 of 20 MiB, 0 MiB/s, 1:00:00 left\x1b[K\r40%, 8 of 20 MiB, 0 MiB/s, 45:00 left\x1b[K\r60%, 12 of 20 MiB, 0 MiB/s, 30:00 left\x1b[K\r80%, 16 of 20 MiB, 0 MiB/s, 15:00 left\x1b[K",
    ),
    (
        40_000_000,
        4,
        "\r20%, 4 of 20 MiB, 0 MiB/s, 44:26:40 left\x1b[K\r40%, 8 of 20 MiB, 0 MiB/s, 33:20:00 left\x1b[K\r60%, 12 of 20 MiB, 0 MiB/s, 22:13:20 left\x1b[K\r80%, 16 of 20 MiB\x1b[K",
    ),
];

/// What a terminal gets during nine reads by such a clock.
fn shown_by(alloc: Global, millis: u64, readings: u64) -> io::Result<Vec<u8>> {
    let disk = Disk::new(alloc);
    let runtime = OddClock {
        runtime: MemoryRuntime::new(alloc, &disk, ""),
        disk: &disk,
        millis,
        readings,
    };
    read(alloc, &runtime, 9)?;
    disk.standard_error()
}

#[test]
fn rate_and_time_left_go_by_the_clock(rt: HostRuntime) -> Result<(), Fail> {
    for &(millis, readings, lines) in &CLOCKS {
        let shown = shown_by(rt.alloc(), millis, readings)?;
        let at = format_args!("{millis} and {readings}");
        same(at, shown.as_slice(), lines.as_bytes())?;
    }
    Ok(())
}
