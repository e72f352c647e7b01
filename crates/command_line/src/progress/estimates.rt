//! How far long work is, and how long the rest of it will take.
ghost use Rattle.std.specs.Prelude.{◌≡◌, option_map};
ghost use Rattle.command_line.specs.Progress.{percent_of, seconds_left};

use std::fmt;

/// After how many milliseconds of work it is said how long the rest will take.
const FIRST_ESTIMATE: u64 = 10_000;

/// How many whole hundredths of work on `total` bytes are done. All are if there is no work.
pub(crate) fn percent_of(done: u64, total: u64) -> u128
    ensures { result ≡ percent_of done total }
{
    if done >= total {
        return 100;
    }
    done as u128 * 100 / total as u128
}

/// How long the rest of long work will take.
#[derive(Clone, Copy)]
pub(crate) struct TimeLeft {
    seconds: u128,
}

impl TimeLeft {
    /// How long the rest of `total` bytes will take at the speed so far, if `done` of them took so many milliseconds.
    /// `None` in the first ten seconds, and if nothing is done.
    pub(crate) fn estimated(done: u64, total: u64, millis: u64) -> Option<TimeLeft>
        ensures { option_map (λ left. left.seconds) result ≡ seconds_left done total millis }
    {
        if millis < FIRST_ESTIMATE {
            return None;
        }
        let left = total.saturating_sub(done) as u128;
        let seconds = (left * millis as u128).checked_div(done as u128 * 1000)?;
        Some(TimeLeft { seconds })
    }
}

/// Minutes and seconds, as `1:05`, and from an hour on hours too, as `2:01:05`.
impl fmt::Display for TimeLeft {
    ghost use Rattle.std.specs.Prelude.{Some};
    ghost use Rattle.command_line.specs.Progress.{time_text};

    ghost output = { λ left. Some (time_text left.seconds) };

    fn fmt<W: fmt::Write>(&self, f: &mut fmt::Formatter<W>) -> fmt::Result {
        let seconds = self.seconds;
        let (tens, ones) = (seconds % 60 / 10, seconds % 60 % 10);
        if seconds < 3600 {
            let minutes = seconds / 60;
            return write!(f, "{minutes}:{tens}{ones}");
        }
        let (hours, minutes) = (seconds / 3600, seconds / 60 % 60);
        let (ten_minutes, minutes) = (minutes / 10, minutes % 10);
        write!(f, "{hours}:{ten_minutes}{minutes}:{tens}{ones}")
    }
}
