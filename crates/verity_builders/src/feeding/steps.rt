//! Steps until a hash block closes or all bytes of a piece are taken.
ghost use Rattle.std.specs.Prelude.{◌≡◌, ◌⊎◌, ℕ, ◌+◌, ◌*◌, ◌<◌, ◌≤◌, ◌==◌, ◌++◌, List, length, take, true, false};
ghost use Rattle.verity_plan.specs.PlanCounts.{level_count_of};
ghost use Rattle.verity_blocks.specs.Steps.Feeding.{CanStep, FeedsOn, HasFed, Stands};

use crate::feeding::pieces::take_bytes;
use verity_blocks::{KnownZeros, Progress, close_next};
use verity_plan::Plan;

/// Goes on until a hash block closes or bytes of the piece are taken: how many, none if a hash block has closed.
fn advance<'a>(
    plan: &'a Plan,
    levels: usize,
    progress: &mut Progress,
    opened: &mut [u8],
    window: &mut [u8],
    zeros: &mut KnownZeros<'a>,
    piece: &[u8],
) -> usize
    requires step { CanStep plan.now levels progress.old.fed progress.old.closed opened.old window.old }
    requires most { progress.old.fed + length piece.now ≤ plan.now.wanted }
    requires some { 0 < length piece.now }
    ensures most { result ≤ length piece.now }
    ensures fed { progress.new.fed ≡ progress.old.fed + result }
    ensures taken { 0 < result → progress.new.closed ≡ 0 }
    ensures closed { result ≡ 0 → (progress.new.closed ≡ progress.old.closed + 1)
        × (progress.old.closed < levels) × (0 < progress.old.fed) }
    ensures stands { (room : ℕ) (fed : List ℕ) → levels ≤ room
        → room * plan.now.settings.hash_block ≤ length opened.old → length fed ≡ progress.old.fed
        → Stands plan.now room fed progress.old.closed opened.old window.old
        → FeedsOn plan.now room fed progress.old.closed (take result piece.now) (result == 0) progress.new.closed
        opened.new window.new }
{
    if close_next(plan, levels, progress, opened, window, zeros) {
        return 0;
    }
    let taken = take_bytes(plan, window, progress.fed, piece);
    progress.fed += taken as u64;
    progress.closed = 0;
    taken
}

/// Takes a piece until a hash block closes before its end: how many bytes were taken, and whether one has closed.
pub(crate) fn feed_before_end(
    plan: &Plan,
    levels: usize,
    progress: &mut Progress,
    opened: &mut [u8],
    window: &mut [u8],
    piece: &[u8],
) -> (usize, bool)
    requires step { CanStep plan.now levels progress.old.fed progress.old.closed opened.old window.old }
    requires most { progress.old.fed + length piece.now ≤ plan.now.wanted }
    ensures most { result.0 ≤ length piece.now }
    ensures fed { progress.new.fed ≡ progress.old.fed + result.0 }
    ensures closed { progress.new.closed ≤ levels }
    ensures none_closes { result.1 ≡ false → (result.0 ≡ length piece.now)
        × (0 < length piece.now → progress.new.closed ≡ 0)
        × (length piece.now ≡ 0 → progress.new.closed ≡ progress.old.closed) }
    ensures closes { result.1 ≡ true → (0 < progress.new.closed) × (0 < progress.new.fed)
        × (result.0 ≡ 0 → progress.new.closed ≡ progress.old.closed + 1) }
    ensures before_end { result.1 ≡ true → result.0 < length piece.now }
    ensures stands { (room : ℕ) (fed : List ℕ) → levels ≤ room
        → room * plan.now.settings.hash_block ≤ length opened.old → length fed ≡ progress.old.fed
        → Stands plan.now room fed progress.old.closed opened.old window.old
        → FeedsOn plan.now room fed progress.old.closed (take result.0 piece.now) result.1 progress.new.closed
        opened.new window.new }
{
    let mut zeros = KnownZeros::none();
    let mut taken = 0;
    while taken < piece.len() {
        let rest = &piece[taken..];
        let count = advance(plan, levels, progress, opened, window, &mut zeros, rest);
        if count == 0 {
            return (taken, true);
        }
        taken += count;
    }
    (taken, false)
}

/// Takes a piece until a hash block closes: how many bytes were taken, and whether one has closed. When all data has come,
/// hash blocks close without bytes, in the end those of the levels above the plan's own.
pub(crate) fn feed_until_closed(
    plan: &Plan,
    levels: usize,
    progress: &mut Progress,
    opened: &mut [u8],
    window: &mut [u8],
    piece: &[u8],
) -> (usize, bool)
    requires step { CanStep plan.now levels progress.old.fed progress.old.closed opened.old window.old }
    requires most { progress.old.fed + length piece.now ≤ plan.now.wanted }
    ensures most { result.0 ≤ length piece.now }
    ensures fed { progress.new.fed ≡ progress.old.fed + result.0 }
    ensures closed { progress.new.closed ≤ levels }
    ensures none_closes { result.1 ≡ false → (result.0 ≡ length piece.now)
        × (progress.new.fed ≡ plan.now.wanted → progress.new.closed ≡ levels) }
    ensures closes { result.1 ≡ true → (0 < progress.new.closed) × (0 < progress.new.fed)
        × (result.0 ≡ 0 → progress.new.closed ≡ progress.old.closed + 1) }
    ensures stays { result.1 ≡ false → length piece.now ≡ 0 → progress.new.closed ≡ progress.old.closed }
    ensures waits { result.1 ≡ true → (result.0 < length piece.now) ⊎ (progress.new.fed ≡ plan.now.wanted) }
    ensures stands { (room : ℕ) (fed : List ℕ) → levels ≤ room
        → room * plan.now.settings.hash_block ≤ length opened.old → length fed ≡ progress.old.fed
        → Stands plan.now room fed progress.old.closed opened.old window.old
        → FeedsOn plan.now room fed progress.old.closed (take result.0 piece.now) result.1 progress.new.closed
        opened.new window.new }
{
    let (taken, closes) = feed_before_end(plan, levels, progress, opened, window, piece);
    if closes || progress.fed < plan.wanted() || progress.closed >= levels {
        return (taken, closes);
    }
    let mut zeros = KnownZeros::none();
    let last_closes = close_next(plan, levels, progress, opened, window, &mut zeros);
    (taken, last_closes)
}

/// Takes all of a piece. The window so far stays open for more bytes.
// Apart, so that a short piece of a file takes no longer for it.
#[inline(never)]
pub(crate) fn feed_all(plan: &Plan, count: u64, opened: &mut [u8], window: &mut [u8], piece: &[u8])
    requires step { CanStep plan.now (level_count_of plan.now) count 0 opened.old window.old }
    requires most { count + length piece.now ≤ plan.now.wanted }
    ensures { (levels : ℕ) (fed : List ℕ) → level_count_of plan.now ≤ levels
        → levels * plan.now.settings.hash_block ≤ length opened.old → length fed ≡ count
        → HasFed plan.now.settings levels fed opened.old window.old
        → HasFed plan.now.settings levels (fed ++ piece.now) opened.new window.new }
{
    let mut progress = Progress {
        fed: count,
        closed: 0,
    };
    let levels = plan.levels();
    let mut zeros = KnownZeros::none();
    let mut taken = 0;
    'pieces: while taken < piece.len() {
        taken += advance(
            plan,
            levels,
            &mut progress,
            opened,
            window,
            &mut zeros,
            &piece[taken..],
        );
    }
}
