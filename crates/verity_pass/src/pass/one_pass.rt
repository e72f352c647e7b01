//! One pass over the data: it is read window by window, and each hash block that closes is handed on.
ghost use Rattle.std.specs.Prelude.{◌≡◌, ◌*◌, ◌≤◌, length};
ghost use Rattle.verity_io.specs.Counting.{change};
ghost use Rattle.verity_plan.specs.Plans.{IsPlan};
ghost use Rattle.verity_plan.specs.PlanCounts.{level_count_of, store_length_of};
ghost use Rattle.verity_blocks.specs.Steps.Feeding.{CanStep};
ghost use Rattle.verity_pass.specs.Steps.OnClosed.{effects};
ghost use Rattle.verity_pass.specs.Steps.OnePass.{PassRun};
ghost use Rattle.verity_blocks.specs.Windows.{window_length};

use crate::pass::on_closed::OnClosed;
use crate::pass::pass_fault::{PassFault, Stop};
use crate::pass::reading::read_window;
use verity_blocks::{
    KnownZeros, Progress, close_next, digest_at_the_top, handed_out, planned, window_length,
};
use verity_hash::Digest;
use verity_io::{Device, Source};
use verity_plan::Plan;

/// The memory for windows of eight data blocks of up to 4096 bytes, in bytes.
const SMALL_WINDOW: usize = 32_768;

/// That for eight of up to 16384.
const MIDDLE_WINDOW: usize = 131_072;

/// That for all others.
const LARGE_WINDOW: usize = 524_288;

/// Passes over the data once, with a store to work in, and hands on each hash block that closes. The one data block of a
/// tree without levels is read into the store.
pub(crate) fn pass<C: OnClosed, S: Source, D: Device>(
    plan: &Plan,
    on_closed: &C,
    store: &mut [u8],
    source: &mut S,
    device: &mut D,
) -> Result<Digest, PassFault<C::Why>>
    requires { length store.old ≡ store_length_of plan.now }
    ensures planned { IsPlan plan.now }
    ensures source_told { S.tells source.old → S.tells source.new }
    ensures device_told { D.tells device.old → D.tells device.new }
    ensures run { PassRun (effects C.is_failure C.keeps C.leaves C.stops) plan.now result
        (change S.tells S.remaining S.failures source.old source.new)
        (change D.tells D.content D.failures device.old device.new) }
{
    planned(plan);
    let (work, stored) = store.split_at_mut(store.len() - plan.hash_block());
    let (opened, block) = work.split_at_mut(plan.levels() * plan.hash_block());
    if plan.levels() == 0 {
        // A source sees nothing of what the store was used for before.
        let wanted = plan.wanted().min(block.len() as u64) as usize;
        block[..wanted].fill(0);
        return match read_window(plan, block, 0, source) {
            Ok(count) => {
                block[count..].fill(0);
                Ok(plan.settings().hash(block))
            }
            Err(stop) => Err(PassFault::InData(stop)),
        };
    }
    let wide = window_length(plan.settings());
    if wide <= SMALL_WINDOW {
        pass_with_window::<SMALL_WINDOW, C, S, D>(plan, on_closed, opened, stored, source, device)
    } else if wide <= MIDDLE_WINDOW {
        pass_with_window::<MIDDLE_WINDOW, C, S, D>(plan, on_closed, opened, stored, source, device)
    } else {
        pass_with_window::<LARGE_WINDOW, C, S, D>(plan, on_closed, opened, stored, source, device)
    }
}

/// The pass over the data blocks with a window in `N` bytes. It isn't inlined, so that the stack holds only those that are
/// used.
#[inline(never)]
fn pass_with_window<const N: usize, C: OnClosed, S: Source, D: Device>(
    plan: &Plan,
    on_closed: &C,
    opened: &mut [u8],
    stored: &mut [u8],
    source: &mut S,
    device: &mut D,
) -> Result<Digest, PassFault<C::Why>>
    requires planned { IsPlan plan.now }
    requires window { window_length plan.now.settings ≤ N }
    requires most { N ≤ 524288 }
    requires room { level_count_of plan.now * plan.now.settings.hash_block ≤ length opened.old }
    requires stored { length stored.old ≡ plan.now.settings.hash_block }
    ensures source_told { S.tells source.old → S.tells source.new }
    ensures device_told { D.tells device.old → D.tells device.new }
    ensures run { PassRun (effects C.is_failure C.keeps C.leaves C.stops) plan.now result
        (change S.tells S.remaining S.failures source.old source.new)
        (change D.tells D.content D.failures device.old device.new) }
{
    let window = &mut [0; N][..window_length(plan.settings())];
    pass_over_windows(plan, on_closed, opened, window, stored, source, device)
}

/// The pass over the data blocks, window by window. What stood in the open blocks doesn't count; a hash block to compare
/// with is read into `stored`.
fn pass_over_windows<C: OnClosed, S: Source, D: Device>(
    plan: &Plan,
    on_closed: &C,
    opened: &mut [u8],
    window: &mut [u8],
    stored: &mut [u8],
    source: &mut S,
    device: &mut D,
) -> Result<Digest, PassFault<C::Why>>
    requires step { CanStep plan.now (level_count_of plan.now) 0 0 opened.old window.old }
    requires stored { length stored.old ≡ plan.now.settings.hash_block }
    ensures source_told { S.tells source.old → S.tells source.new }
    ensures device_told { D.tells device.old → D.tells device.new }
    ensures run { PassRun (effects C.is_failure C.keeps C.leaves C.stops) plan.now result
        (change S.tells S.remaining S.failures source.old source.new)
        (change D.tells D.content D.failures device.old device.new) }
{
    opened.fill(0);
    let levels = plan.levels();
    let mut progress = Progress { fed: 0, closed: 0 };
    let mut zeros = KnownZeros::none();
    'steps: while progress.fed < plan.wanted() || progress.closed < levels {
        if close_next(plan, levels, &mut progress, opened, window, &mut zeros) {
            let next = handed_out(plan, 0, &progress);
            let (level, block) = (next.level, next.index);
            let bytes = &opened[next.at..][..plan.hash_block()];
            match on_closed.take(plan, level, block, bytes, stored, device) {
                Ok(()) => {}
                Err(why) => return Err(PassFault::AtBlock(Stop { level, block, why })),
            }
        } else {
            let count = match read_window(plan, window, progress.fed, source) {
                Ok(count) => count,
                Err(stop) => return Err(PassFault::InData(stop)),
            };
            progress.fed += count as u64;
            progress.closed = 0;
        }
    }
    Ok(digest_at_the_top(plan, levels, opened, window))
}
