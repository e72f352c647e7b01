//! Runtimes on which the progress of long work is shown.

use std::io::{Eprint, IsTerminal};
use std::time::Clock;

/// After how many bytes of long work progress is shown again: 64 MiB.
const STEP: u64 = 64 << 20;

/// A runtime whose standard error may be a terminal.
pub trait ProgressRuntime: Clock + Eprint {
    /// After how many bytes of long work progress is shown again. `None` if standard error is no terminal: then none is
    /// shown.
    fn step(&self) -> Option<u64>;
}

impl ProgressRuntime for HostRuntime {
    fn step(&self) -> Option<u64> {
        if self.stderr().is_terminal() {
            Some(STEP)
        } else {
            None
        }
    }
}
