//! A reader that shows its progress.
ghost use Rattle.std.specs.Prelude.{◌≡◌};
ghost use Rattle.command_line.specs.InnerStreams.{inner_reader};

use crate::progress::progress_runtime::ProgressRuntime;
use crate::progress::shown_progress::ShownProgress;
use std::io;
use std::io::Read;
use std::time::Instant;

/// How much of a reader's bytes was read.
#[derive(Drop)]
struct ReadSoFar<'a, R> {
    progress: &'a ShownProgress<'a, R>,
    /// How many bytes were read, and how many there are.
    done: u64,
    total: u64,
    /// After how many bytes the progress line is written again, and `None` if it is never written.
    step: Option<u64>,
    /// After how many bytes in all it is written next.
    next: u64,
    start: Option<Instant>,
}

impl<'a, R: ProgressRuntime> ReadSoFar<'a, R> {
    /// Nothing is read yet. The progress line is written if there is a terminal and there are more bytes than four
    /// steps.
    fn new(progress: &'a ShownProgress<'a, R>, total: u64) -> Self {
        let (step, start) = match progress.step() {
            Some(step) if step.saturating_mul(4) < total => (Some(step), progress.now()),
            _ => (None, None),
        };
        ReadSoFar {
            progress,
            done: 0,
            total,
            step,
            next: step.unwrap_or(0),
            start,
        }
    }

    /// Counts bytes that were read.
    fn advance(&mut self, count: usize) {
        let Some(step) = self.step else {
            return;
        };
        self.done = self.done.saturating_add(count as u64);
        if self.done >= self.next {
            self.next = self.done.saturating_add(step);
            self.progress.show(self.done, self.total, self.start);
        }
    }
}

/// A reader that shows its progress, if there is a terminal and it has more bytes than four of the runtime's steps. Its
/// reads are those of the inner reader.
#[derive(Drop)]
pub struct ProgressReader<'a, R, F> {
    inner: F,
    so_far: ReadSoFar<'a, R>,
}

impl<'a, R: ProgressRuntime, F: Read> ProgressReader<'a, R, F> {
    /// A reader of `total` bytes, whose progress `progress` shows.
    pub fn new(inner: F, total: u64, progress: &'a ShownProgress<'a, R>) -> Self
        ensures { inner_reader result ≡ inner }
    {
        ProgressReader {
            inner,
            so_far: ReadSoFar::new(progress, total),
        }
    }
}

impl<R: ProgressRuntime, F: Read> Read for ProgressReader<'_, R, F> {
    ghost remaining = { λ s. F.remaining s.inner };

    fn read(&mut self, buf: &mut [u8]) -> io::Result<usize> {
        let result = self.inner.read(buf);
        if let Ok(count) = &result {
            self.so_far.advance(*count);
        }
        result
    }
}
