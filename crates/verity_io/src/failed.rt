//! The one error of sources and devices, and how it is counted.
ghost use Rattle.std.specs.Prelude.{◌≡◌};
ghost use Rattle.verity_io.specs.Counting.{CountsFailure};

/// A read or a write failed. The system's own error isn't kept.
#[derive(Clone, Copy, Debug, PartialEq, Eq)]
pub struct Failed;

// Counts the call if it failed, and hands its outcome back.
pub(crate) fn count_failure<X>(failures: &mut u64, outcome: Result<X, Failed>) -> Result<X, Failed>
    ensures same { result ≡ outcome }
    ensures count { CountsFailure failures.old failures.new result }
{
    if outcome.is_err() {
        *failures = failures.saturating_add(1);
    }
    outcome
}
