//! The progress of long work, as a terminal shows it.
ghost use Rattle.std.specs.Prelude.{◌≡◌};
ghost use Rattle.command_line.specs.InnerStreams.{inner_writer};

use crate::progress::estimates::{TimeLeft, percent_of};
use crate::progress::progress_runtime::ProgressRuntime;
use std::cell::Cell;
use std::io;
use std::io::Write;
use std::time::Instant;

/// The progress of long work, in a line on standard error. It is rewritten in place, and whatever else is written goes
/// through an `ErasingWriter`, which erases it first. No contract can say what the terminal shows.
#[derive(Drop)]
pub struct ShownProgress<'a, R> {
    rt: &'a R,
    /// After how many bytes the line is written again, and `None` if there is no terminal.
    step: Option<u64>,
    /// Whether the terminal shows the line now.
    is_shown: Cell<bool>,
}

impl<'a, R: ProgressRuntime> ShownProgress<'a, R> {
    /// No line is shown yet. The runtime is asked here, and only here, whether there is a terminal.
    pub fn new(rt: &'a R) -> Self {
        ShownProgress {
            rt,
            step: rt.step(),
            is_shown: Cell::new(false),
        }
    }

    /// Erases the line if it is shown (ECMA-48, "EL").
    pub fn erase(&self) {
        if self.is_shown.replace(false) {
            let _ = eprint!(self.rt; "\r\x1b[K");
        }
    }

    /// After how many bytes the line is written again, if there is a terminal.
    pub(crate) fn step(&self) -> Option<u64> {
        self.step
    }

    /// The time now, if the clock can be read.
    pub(crate) fn now(&self) -> Option<Instant> {
        Instant::now(self.rt).ok()
    }

    /// Writes the line over the one that is shown. Without a clock it has neither a rate nor the time left.
    pub(crate) fn show(&self, done: u64, total: u64, start: Option<Instant>) {
        self.is_shown.set(true);
        let percent = percent_of(done, total);
        let millis = self.millis_since(start);
        let left = TimeLeft::estimated(done, total, millis.unwrap_or(0));
        let (done, total) = (done >> 20, total >> 20);
        let rate = millis.and_then(|millis| (done as u128 * 1000).checked_div(millis as u128));
        let _ = match (rate, left) {
            (None, _) => eprint!(self.rt; "\r{percent}%, {done} of {total} MiB\x1b[K"),
            (Some(rate), None) => {
                eprint!(self.rt; "\r{percent}%, {done} of {total} MiB, {rate} MiB/s\x1b[K")
            }
            (Some(rate), Some(left)) => {
                eprint!(self.rt;
                    "\r{percent}%, {done} of {total} MiB, {rate} MiB/s, {left} left\x1b[K"
                )
            }
        };
    }

    /// How many milliseconds have passed since the start.
    fn millis_since(&self, start: Option<Instant>) -> Option<u64> {
        u64::try_from(start?.elapsed(self.rt).ok()?.as_millis()).ok()
    }
}

/// A writer that erases the progress line before each write.
#[derive(Drop)]
pub struct ErasingWriter<'a, R, W> {
    progress: &'a ShownProgress<'a, R>,
    inner: W,
}

impl<'a, R: ProgressRuntime, W: Write> ErasingWriter<'a, R, W> {
    /// A writer that passes everything on to `inner`.
    pub fn new(progress: &'a ShownProgress<'a, R>, inner: W) -> Self
        ensures { inner_writer result ≡ inner }
    {
        ErasingWriter { progress, inner }
    }
}

impl<R: ProgressRuntime, W: Write> Write for ErasingWriter<'_, R, W> {
    ghost contents = { λ w. W.contents w.inner };

    fn write(&mut self, buf: &[u8]) -> io::Result<usize> {
        self.progress.erase();
        self.inner.write(buf)
    }

    fn flush(&mut self) -> io::Result<()> {
        self.inner.flush()
    }
}
