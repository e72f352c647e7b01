//! How a run ended in which a request for memory may have been refused.
use std::process::Abort;

/// Each test expects `Whole`, and ends so if no request is refused.
#[derive(Debug, Drop, PartialEq)]
pub enum RunResult {
    /// Everything was done.
    Whole,
    /// The test could not prepare itself.
    Unprepared,
    /// Out of memory was answered, and nothing is written or printed; if the test sees what is read, nothing is read.
    Untouched,
    /// Out of memory was answered, and everything from before the refused request stands whole, and nothing else.
    Stopped,
    /// The run ended by another fault, with its status, and there was no memory for its message.
    NoMessage,
    /// Anything else.
    Wrong,
}

/// Fails a test whose run wasn't whole. This is an assertion, not `same`, because `tests/memory.sh` reads how the run
/// ended from its line `left:`.
pub fn ends_whole<R: Abort>(rt: &R, found: RunResult) {
    assert_eq!(rt; found, RunResult::Whole);
}
