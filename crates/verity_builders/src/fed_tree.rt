//! A tree that is fed: above all data of a plan, or above those of a part.
ghost use Rattle.std.specs.Prelude.{◌≡◌, ◌≤◌, ℕ, ◌+◌, List, [], length, take, slice_index_or, IfErr, IfNone, IfOk};
ghost use Rattle.verity_plan.specs.PlanCounts.{level_count_of};
ghost use Rattle.verity_plan.specs.Plans.{IsPlan};
ghost use Rattle.verity_plan.specs.Settings.{digest_len, hash};
ghost use Rattle.verity_blocks.specs.ClosingOrder.{most_closed};
ghost use Rattle.verity_blocks.specs.Levels.{blocks_up, data_blocks};
ghost use Rattle.verity_builders.specs.Feeding.{ending_fault, fault_in, feeding_length, taking_fault};
ghost use Rattle.verity_builders.specs.Steps.FedTrees.{AnswersLast, FeedsFrom, IsFedTo, IsTreeIn, TakesFrom};

use crate::feed_fault::FeedFault;
use crate::feeding::steps::feed_until_closed;
use crate::tree_builder::Fed;
use verity_blocks::{HashBlock, Progress, digest_at_the_top, handed_out, most_closed, planned};
use verity_hash::Digest;
use verity_plan::Plan;

/// Why a piece of a length isn't taken.
#[inline(always)]
fn fault_of(own: &Plan, levels: usize, progress: &Progress, count: usize) -> Option<FeedFault>
    ensures fault { result ≡ taking_fault own.now levels progress.now.fed progress.now.closed count }
    ensures none { IfNone result ((progress.now.closed ≤ most_closed own.now levels progress.now.fed)
        × (progress.now.fed + count ≤ own.now.wanted)) }
{
    if progress.closed > most_closed(own, levels, progress.fed) {
        return Some(FeedFault::Level);
    }
    let wanted = own.wanted();
    match progress.fed.checked_add(count as u64) {
        Some(all) if all <= wanted => None,
        _ => Some(FeedFault::TooLong),
    }
}

/// Feeds a piece of the data, which begin with data block `first` of the whole tree, to the tree above them alone, with so
/// many levels. It is a part of each builder's `feed`, since a call would take a twelfth of the time of a short piece.
#[inline(always)]
pub(crate) fn feed_piece(
    own: &Plan,
    levels: usize,
    whole: &Plan,
    first: u64,
    progress: &mut Progress,
    memory: &mut [u8],
    piece: &[u8],
) -> Result<Fed, FeedFault>
    requires tree { IsTreeIn whole.now own.now first levels }
    requires memory { length memory.old ≡ feeding_length own.now.settings levels }
    ensures planned { IsPlan own.now }
    ensures fault { fault_in result ≡ taking_fault own.now levels progress.old.fed progress.old.closed (length piece.now) }
    ensures refused { IfErr result (λ _. memory.new ≡ memory.old) }
    ensures takes { IfOk result
        (λ answer. TakesFrom whole.now own.now first levels progress.old progress.new (length piece.now) answer) }
    ensures fed { (fed : List ℕ) → IsFedTo own.now levels progress.old memory.old fed
        → IfOk result (λ answer. FeedsFrom own.now levels progress.old progress.new fed (take answer.taken piece.now)
        memory.new answer.hash_block) }
{
    planned(own);
    if let Some(fault) = fault_of(own, levels, progress, piece.len()) {
        return Err(fault);
    }
    let (opened, window) = memory.split_at_mut(levels * own.hash_block());
    let (taken, closes) = feed_until_closed(own, levels, progress, opened, window, piece);
    let hash_block = if closes {
        Some(handed_out(whole, first, progress))
    } else {
        None
    };
    Ok(Fed { taken, hash_block })
}

/// The hash block that was handed out last, if one was since the last byte was fed.
pub(crate) fn last_handed_out(
    own: &Plan,
    levels: usize,
    whole: &Plan,
    first: u64,
    progress: &Progress,
) -> Result<Option<HashBlock>, FeedFault>
    requires { IsTreeIn whole.now own.now first levels }
    ensures planned { IsPlan own.now }
    ensures fault { fault_in result ≡ taking_fault own.now levels progress.now.fed progress.now.closed 0 }
    ensures last { AnswersLast whole.now own.now first levels progress.now result }
{
    planned(own);
    if let Some(fault) = fault_of(own, levels, progress, 0) {
        return Err(fault);
    }
    if progress.fed == 0 || progress.closed == 0 {
        return Ok(None);
    }
    Ok(Some(handed_out(whole, first, progress)))
}

/// The digest of the one block that is left above all of the data.
pub(crate) fn digest_of_fed(
    own: &Plan,
    levels: usize,
    progress: &Progress,
    memory: &mut [u8],
) -> Result<Digest, FeedFault>
    requires levels { level_count_of own.now ≤ levels }
    requires memory { length memory.old ≡ feeding_length own.now.settings levels }
    ensures fault { fault_in result ≡ ending_fault own.now levels progress.now.fed progress.now.closed }
    ensures refused { IfErr result (λ _. memory.new ≡ memory.old) }
    ensures size { IfOk result (λ answer. length answer ≡ digest_len own.now.settings) }
    ensures digest { (fed : List ℕ) → IsFedTo own.now levels progress.now memory.old fed
        → IfOk result (λ answer. answer ≡ hash own.now.settings
        (slice_index_or (blocks_up own.now.settings (data_blocks own.now fed) levels) 0 [])) }
    ensures stays { (fed : List ℕ) → IsFedTo own.now levels progress.now memory.old fed
        → IsFedTo own.now levels progress.now memory.new fed }
{
    planned(own);
    if let Some(fault) = fault_of(own, levels, progress, 0) {
        return Err(fault);
    }
    if progress.fed < own.wanted() {
        return Err(FeedFault::TooShort(progress.fed / own.data_block() as u64));
    }
    if progress.closed < levels {
        return Err(FeedFault::Waiting);
    }
    let (opened, window) = memory.split_at_mut(levels * own.hash_block());
    Ok(digest_at_the_top(own, levels, opened, window))
}
