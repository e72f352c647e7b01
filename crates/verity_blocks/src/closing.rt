//! The steps by which a tree is made, whoever brings the bytes: its hash blocks close one after another, and at the end
//! there is its root hash.
ghost use Rattle.std.specs.Prelude.{◌≡◌, ℕ, ◌+◌, ◌*◌, ◌/◌, ◌^◌, ◌<◌, ◌≤◌, ◌-◌, List, [], length, take, true, false};
ghost use Rattle.std.specs.Prelude.{slice_index_or};
ghost use Rattle.verity_plan.specs.PlanCounts.{level_count_of};
ghost use Rattle.verity_plan.specs.Plans.{IsPlan, start_byte_of};
ghost use Rattle.verity_plan.specs.Settings.{digest_len, fan, hash};
ghost use Rattle.verity_blocks.specs.ClosingOrder.{blocks_before, most_closed};
ghost use Rattle.verity_blocks.specs.Levels.{blocks_up, data_blocks, root};
ghost use Rattle.verity_blocks.specs.Steps.Feeding.{CanStep, ClosesNext, HasFed, Stands, last_window, windows_before};
ghost use Rattle.verity_blocks.specs.Steps.OpenBlocks.{IsAsking, carry_state};
ghost use Rattle.verity_blocks.specs.TreeOnDevice.{tree_block};
ghost use Rattle.verity_blocks.specs.Windows.{window_length};

use crate::hash_block::HashBlock;
use crate::known_zeros::KnownZeros;
use crate::open_blocks::{add_digest, block_with, carry_up, digest_with};
use crate::plans::planned;
use crate::window::{add_window, window_length, window_place};
use verity_hash::Digest;
use verity_plan::Plan;

/// How far a tree has come: by the bytes that were fed, or in a join by the digests that were taken.
#[derive(Clone, Copy)]
pub struct Progress {
    /// How many bytes were fed, or digests taken.
    pub fed: u64,
    /// Of how many levels the hash blocks above the last of them were handed out since it came.
    pub closed: usize,
}

/// Of how many levels hash blocks can have closed above the last of so many bytes: before the last byte only of those of
/// the plan's tree, and with it of all up to a level.
pub fn most_closed(plan: &Plan, level: usize, fed: u64) -> usize
    ensures { result ≡ most_closed plan.now level fed }
{
    if fed < plan.wanted() {
        plan.levels()
    } else {
        level
    }
}

/// Closes the next hash block above the bytes that were fed, if one closes before more come: whether one has. For that
/// the window's data blocks are added, or the hash block that closed last is taken, and the digest of the last of them,
/// or of that block, goes one level up. With the last byte the levels up to `levels` close, also those above the plan's own.
/// `zeros` keeps the digest of a data block of zeros for later calls; what it knows changes no answer.
pub fn close_next<'a>(
    plan: &'a Plan,
    levels: usize,
    progress: &mut Progress,
    opened: &mut [u8],
    window: &mut [u8],
    zeros: &mut KnownZeros<'a>,
) -> bool
    requires step { CanStep plan.now levels progress.old.fed progress.old.closed opened.old window.old }
    requires some { progress.old.fed ≡ plan.now.wanted → progress.old.closed < levels }
    ensures fed { progress.new.fed ≡ progress.old.fed }
    ensures closed { result ≡ true → (progress.new.closed ≡ progress.old.closed + 1)
        × (progress.old.closed < levels) × (0 < progress.old.fed) }
    ensures more { result ≡ false → progress.old.fed < plan.now.wanted }
    ensures stands { (room : ℕ) (fed : List ℕ) → levels ≤ room
        → room * plan.now.settings.hash_block ≤ length opened.old → length fed ≡ progress.old.fed
        → Stands plan.now room fed progress.old.closed opened.old window.old
        → ClosesNext plan.now room fed progress.old.closed result opened.new window.new }
{
    let wide = window_length(plan.settings()) as u64;
    let count = progress.fed;
    let level = progress.closed;
    let ends = count > 0 && (level > 0 || count % wide == 0 || count == plan.wanted());
    if !ends {
        return false;
    }
    if level >= most_closed(plan, levels, count) {
        return false;
    }
    let i = (count - 1) / plan.data_block() as u64;
    let closes = if level == 0 {
        let digest = add_window(plan, opened, window, count, zeros);
        add_digest(plan, opened, i, 0, &digest)
    } else {
        carry_up(plan, opened, i, level)
    };
    if !closes {
        return false;
    }
    progress.closed = level + 1;
    true
}

/// The hash block that was handed out last, when the data that were fed begin with data block `first`.
pub fn handed_out(plan: &Plan, first: u64, progress: &Progress) -> HashBlock
    requires some { 0 < progress.now.fed }
    requires below { first + blocks_before plan.now.settings progress.now.fed < plan.now.blocks }
    requires closed { 0 < progress.now.closed }
    requires level { progress.now.closed ≤ level_count_of plan.now }
    ensures level { progress.now.closed ≡ result.level + 1 }
    ensures index { result.index
        ≡ (first + blocks_before plan.now.settings progress.now.fed) / fan plan.now.settings ^ (result.level + 1) }
    ensures start { result.start ≡ start_byte_of plan.now result.level result.index }
    ensures at { result.at ≡ result.level * plan.now.settings.hash_block }
{
    planned(plan);
    let level = progress.closed - 1;
    let i = first + (progress.fed - 1) / plan.data_block() as u64;
    HashBlock {
        level,
        index: plan.index_above(i, level + 1),
        start: plan.start_above(i, level),
        at: level * plan.hash_block(),
    }
}

/// The digest that comes to a level with the last data block, when all data that the plan wants has come: it goes up
/// through the open blocks below, and is taken out of them again.
fn digest_below(plan: &Plan, opened: &mut [u8], window: &mut [u8], to: usize) -> Digest
    requires planned { IsPlan plan.now }
    requires opened { level_count_of plan.now * plan.now.settings.hash_block ≤ length opened.old }
    requires window { length window.old ≡ window_length plan.now.settings }
    requires level { to ≤ level_count_of plan.now }
    ensures size { length result ≡ digest_len plan.now.settings }
    ensures asks { (levels : ℕ) (fed : List ℕ) → level_count_of plan.now ≤ levels
        → levels * plan.now.settings.hash_block ≤ length opened.old → length fed ≡ plan.now.wanted
        → HasFed plan.now.settings levels fed opened.old window.old
        → IsAsking plan.now.settings (data_blocks plan.now fed) (last_window plan.now)
        (carry_state (plan.now.blocks - 1) to levels) opened.new result }
    ensures stays { take (plan.now.wanted - windows_before plan.now.settings plan.now.wanted
        * window_length plan.now.settings) window.new
        ≡ take (plan.now.wanted - windows_before plan.now.settings plan.now.wanted
        * window_length plan.now.settings) window.old }
{
    let wanted = plan.wanted();
    let first = window_place(plan, wanted).first;
    let last = plan.blocks() - 1;
    let mut digest = add_window(plan, opened, window, wanted, &mut KnownZeros::none());
    for level in 0..to {
        digest = digest_with(plan, opened, first, last, level, &digest);
    }
    digest
}

/// The root hash of the data that the plan wants, when all of it has come: digests go up through the open blocks, and are
/// taken out again. All stays for more bytes, of a plan that wants more.
pub fn root_of_fed(plan: &Plan, opened: &mut [u8], window: &mut [u8]) -> Digest
    requires planned { IsPlan plan.now }
    requires opened { level_count_of plan.now * plan.now.settings.hash_block ≤ length opened.old }
    requires window { length window.old ≡ window_length plan.now.settings }
    ensures size { length result ≡ digest_len plan.now.settings }
    ensures root { (levels : ℕ) (fed : List ℕ) → level_count_of plan.now ≤ levels
        → levels * plan.now.settings.hash_block ≤ length opened.old → length fed ≡ plan.now.wanted
        → HasFed plan.now.settings levels fed opened.old window.old
        → result ≡ root plan.now.settings (data_blocks plan.now fed) }
    ensures stays { (levels : ℕ) (fed : List ℕ) → level_count_of plan.now ≤ levels
        → levels * plan.now.settings.hash_block ≤ length opened.old → length fed ≡ plan.now.wanted
        → HasFed plan.now.settings levels fed opened.old window.old
        → HasFed plan.now.settings levels fed opened.new window.new }
{
    digest_below(plan, opened, window, plan.levels())
}

/// Writes the last hash block of a level into `block`, when all data that the plan wants has come: its number in the level.
/// All stays for more bytes, of a plan that wants more.
pub fn last_block_of_fed(
    plan: &Plan,
    opened: &mut [u8],
    window: &mut [u8],
    level: usize,
    block: &mut [u8],
) -> u64
    requires planned { IsPlan plan.now }
    requires opened { level_count_of plan.now * plan.now.settings.hash_block ≤ length opened.old }
    requires window { length window.old ≡ window_length plan.now.settings }
    requires level { level < level_count_of plan.now }
    requires block { length block.old ≡ plan.now.settings.hash_block }
    ensures index { result ≡ blocks_before plan.now.settings plan.now.wanted / fan plan.now.settings ^ (level + 1) }
    ensures block { (levels : ℕ) (fed : List ℕ) → level_count_of plan.now ≤ levels
        → levels * plan.now.settings.hash_block ≤ length opened.old → length fed ≡ plan.now.wanted
        → HasFed plan.now.settings levels fed opened.old window.old
        → block.new ≡ tree_block plan.now.settings (data_blocks plan.now fed) level result }
    ensures stays { (levels : ℕ) (fed : List ℕ) → level_count_of plan.now ≤ levels
        → levels * plan.now.settings.hash_block ≤ length opened.old → length fed ≡ plan.now.wanted
        → HasFed plan.now.settings levels fed opened.old window.old
        → HasFed plan.now.settings levels fed opened.new window.new }
{
    let first = window_place(plan, plan.wanted()).first;
    let last = plan.blocks() - 1;
    let digest = digest_below(plan, opened, window, level);
    block_with(plan, opened, first, last, level, &digest, block);
    plan.index_above(last, level + 1)
}

/// The digest of the one block that is left, when the hash blocks of all levels have closed: of the top level's, or,
/// without one, of the data block. It is the root hash if there are no levels above the plan's own.
pub fn digest_at_the_top(plan: &Plan, levels: usize, opened: &mut [u8], window: &mut [u8]) -> Digest
    requires step { CanStep plan.now levels plan.now.wanted levels opened.old window.old }
    ensures size { length result ≡ digest_len plan.now.settings }
    ensures digest { (fed : List ℕ) → length fed ≡ plan.now.wanted
        → Stands plan.now levels fed levels opened.old window.old
        → result ≡ hash plan.now.settings
        (slice_index_or (blocks_up plan.now.settings (data_blocks plan.now fed) levels) 0 []) }
    ensures stays { (fed : List ℕ) → length fed ≡ plan.now.wanted
        → Stands plan.now levels fed levels opened.old window.old
        → Stands plan.now levels fed levels opened.new window.new }
{
    let size = plan.hash_block();
    if levels == 0 {
        return root_of_fed(plan, opened, window);
    }
    plan.settings()
        .hash(&opened[(levels - 1) * size..levels * size])
}
