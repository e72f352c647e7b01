//! A tree that is joined from parts, which were built apart: what stands above their digests.
ghost use Rattle.std.specs.Prelude.{◌≡◌, ◌⊎◌, ◌<◌, ◌≤◌, ℕ, ◌+◌, ◌-◌, ◌*◌, ◌/◌, ◌%◌, ◌^◌, List, length, take, IfErr};
ghost use Rattle.std.specs.Prelude.{IfOk, MatchOption, Option, Some, None, true, false};
ghost use Rattle.verity_plan.specs.PlanCounts.{level_count_of, count_under};
ghost use Rattle.verity_plan.specs.Plans.{IsPlan, start_byte_of};
ghost use Rattle.verity_plan.specs.Settings.{digest_len, fan};
ghost use Rattle.verity_builders.specs.Feeding.{fault_in};
ghost use Rattle.verity_blocks.specs.Levels.{data_blocks, root};
ghost use Rattle.verity_builders.specs.Parts.{AreDigests, HasLastOfJoin, IsHandedOutOfJoin, IsJoined, IsPlacedOfJoin};
ghost use Rattle.verity_builders.specs.Parts.{Joins, TakesOfJoin, counts_none_closed, digests_fault, join_fault};
ghost use Rattle.verity_builders.specs.Parts.{join_length, part_fault};
ghost use Rattle.verity_blocks.specs.Steps.OpenBlocks.{HasOpenBlocks, level_digest};
ghost use Rattle.verity_builders.specs.Steps.Parts.{ClosesAbove, HasDigests, JoinStands, JoinsOn, plan_of_join};

use crate::feed_fault::FeedFault;
use crate::part_builder::PartFault;
use crate::tree_builder::Fed;
use verity_blocks::{HashBlock, Progress, add_digest, carry_up, planned};
use verity_hash::Digest;
use verity_plan::Plan;

/// A builder of what stands above the parts of a level, by their digests, which come in the order of the parts. It
/// works in memory that is handed in at each call, takes none itself, and hands out each hash block of this level and
/// above as it closes. With those that the parts handed out they are the whole tree, each once.
///
/// It is plain numbers, which may be kept anywhere. Whatever stands in it, each call is safe and returns; its answers
/// are right where builder and memory are as the call before left them.
#[derive(Clone, Copy, Debug, PartialEq, Eq)]
pub struct JoinBuilder {
    /// The plan of the whole tree.
    pub plan: Plan,
    /// The level to which the parts' digests come, counted from 0 next to the data.
    pub level: usize,
    /// How many digests were taken.
    pub taken: u64,
    /// Of how many levels the hash blocks above the last digest were handed out since it was taken.
    pub closed: usize,
}

impl JoinBuilder {
    /// The length of the memory for joining the parts of a level, in bytes: an open block for each level from this one
    /// on, and a digest. The level is at most the number of levels.
    pub fn memory_length(plan: &Plan, level: usize) -> usize
        requires { level ≤ level_count_of plan.now }
        ensures { result ≡ join_length plan.now level }
    {
        planned(plan);
        (plan.levels() - level) * plan.hash_block() + plan.digest_len()
    }

    /// A builder to which no digest was given yet. What stood in the memory doesn't count.
    ///
    /// `Level` if the tree has fewer levels. Then the memory stays as it was.
    pub fn begin(plan: &Plan, level: usize, memory: &mut [u8]) -> Result<JoinBuilder, PartFault>
        requires { length memory.old ≡ join_length plan.now level }
        ensures fault { IfErr result (λ fault. part_fault plan.now level 0 ≡ Some fault) }
        ensures level { IfOk result (λ builder. level ≤ level_count_of plan.now) }
        ensures refused { IfErr result (λ _. memory.new ≡ memory.old) }
        ensures new { IfOk result
            (λ builder. builder ≡ record { plan = plan.now; level = level; taken = 0; closed = 0 }) }
        ensures joined { IfOk result (λ builder. (bytes : List ℕ) → IsJoined builder memory.new bytes) }
    {
        if level > plan.levels() {
            return Err(PartFault::Level);
        }
        planned(plan);
        memory.fill(0);
        Ok(JoinBuilder {
            plan: *plan,
            level,
            taken: 0,
            closed: 0,
        })
    }

    /// Takes the parts' next digests, one after another: all of them, or up to the one with which a hash block closes,
    /// which is handed out. Then the rest of the digests, perhaps none, is to be given, until no hash block is handed
    /// out any more. The memory has the length `memory_length`, and `digests` that of whole digests.
    ///
    /// `Level` if the tree has fewer levels than the builder counts, or if all digests and no hash block are counted
    /// although there are some; else `TooLong` if there are more digests with these than the level has parts. Then
    /// builder and memory stay as they were.
    pub fn feed(&mut self, memory: &mut [u8], digests: &[u8]) -> Result<Fed, FeedFault>
        requires memory { length memory.old ≡ join_length self.old.plan self.old.level }
        requires digests { length digests.now % digest_len self.old.plan.settings ≡ 0 }
        ensures fault { fault_in result ≡ digests_fault self.old (length digests.now) }
        ensures refused { IfErr result (λ _. (self.new ≡ self.old) × (memory.new ≡ memory.old)) }
        ensures takes { IfOk result (λ answer. TakesOfJoin self.old self.new (length digests.now) answer) }
        ensures joins { (bytes : List ℕ) → IsJoined self.old memory.old bytes
            → IfOk result (λ answer.
            AreDigests self.old.plan self.old.level self.old.taken (take answer.taken digests.now) bytes
            → Joins self.old self.new bytes memory.new answer.hash_block) }
    {
        let plan = self.plan;
        let Some(levels) = levels_left(self) else {
            return Err(FeedFault::Level);
        };
        let count = digests.len() / plan.digest_len();
        let parts = plan.count_under(self.level);
        match self.taken.checked_add(count as u64) {
            Some(all) if all <= parts => {}
            _ => return Err(FeedFault::TooLong),
        }
        let own = joining_plan(&plan, self.level);
        let (opened, last) = memory.split_at_mut(levels * plan.hash_block());
        let mut progress = Progress {
            fed: self.taken,
            closed: self.closed,
        };
        let (taken, closes) = join_until_closed(&own, &mut progress, opened, last, digests);
        self.taken = progress.fed;
        self.closed = progress.closed;
        let hash_block = if closes {
            Some(joined(&plan, self.level, &progress))
        } else {
            None
        };
        Ok(Fed { taken, hash_block })
    }

    /// The hash block that was handed out last, as `feed` answered it. It stands in the memory until `feed` takes
    /// digests or hands out the next one, and can be asked for again.
    ///
    /// `None` if none was handed out since the last digest was taken. `Level` or `TooLong` as `feed` answers no digests.
    /// Of other numbers that no call leaves, the block that it names means nothing.
    pub fn last_block(&self) -> Result<Option<HashBlock>, FeedFault>
        ensures fault { fault_in result ≡ digests_fault self.now 0 }
        ensures placed { IfOk result (λ last. MatchOption last (HasLastOfJoin self.now → ⊥)
            (λ block. HasLastOfJoin self.now × IsPlacedOfJoin self.now block)) }
        ensures stands { (memory bytes : List ℕ) → IsJoined self.now memory bytes
            → IfOk result (λ last. MatchOption last (self.now.closed ≡ 0)
            (λ block. IsHandedOutOfJoin self.now bytes memory block)) }
    {
        let plan = self.plan;
        let Some(_) = levels_left(self) else {
            return Err(FeedFault::Level);
        };
        if self.taken > plan.count_under(self.level) {
            return Err(FeedFault::TooLong);
        }
        if self.taken == 0 || self.closed == 0 {
            return Ok(None);
        }
        let last = Progress {
            fed: self.taken,
            closed: self.closed,
        };
        Ok(Some(joined(&plan, self.level, &last)))
    }

    /// The root hash, when the digests of all parts were taken and all hash blocks handed out: of the top hash block,
    /// or the digest itself of the one part that is the whole tree. It can be asked for as often as one likes. The
    /// memory has the length `memory_length`.
    ///
    /// `Level` if the tree has fewer levels than the builder counts, or if all digests and no hash block are counted
    /// although there are some; else `TooLong` or `TooShort` if more or fewer digests were taken than the level has
    /// parts; else `Waiting` if a hash block is still to be handed out.
    pub fn end(&self, memory: &[u8]) -> Result<Digest, FeedFault>
        requires { length memory.now ≡ join_length self.now.plan self.now.level }
        ensures fault { fault_in result ≡ join_fault self.now }
        ensures size { IfOk result (λ answer. length answer ≡ digest_len self.now.plan.settings) }
        ensures root { (bytes : List ℕ) → IsJoined self.now memory.now bytes
            → IfOk result (λ answer. answer ≡ root self.now.plan.settings (data_blocks self.now.plan bytes)) }
    {
        let plan = self.plan;
        let Some(levels) = levels_left(self) else {
            return Err(FeedFault::Level);
        };
        let parts = plan.count_under(self.level);
        if self.taken > parts {
            return Err(FeedFault::TooLong);
        }
        if self.taken < parts {
            return Err(FeedFault::TooShort(self.taken));
        }
        if self.closed < levels {
            return Err(FeedFault::Waiting);
        }
        let size = plan.hash_block();
        if levels == 0 {
            return Ok(digest_in(&memory[levels * size..]));
        }
        let top = levels - 1;
        Ok(plan.settings().hash(&memory[top * size..top * size + size]))
    }
}

/// The number of levels from a builder's on, if the tree has that level, or it is the one above the top, and as many
/// levels are left as are counted; and some are counted if the digests of all parts are.
fn levels_left(builder: &JoinBuilder) -> Option<usize>
    ensures left { MatchOption result
        ((level_count_of builder.now.plan < builder.now.level + builder.now.closed)
        ⊎ (counts_none_closed builder.now ≡ true))
        (λ left. (builder.now.level + builder.now.closed ≤ level_count_of builder.now.plan)
        × (left ≡ level_count_of builder.now.plan - builder.now.level)
        × (counts_none_closed builder.now ≡ false)) }
    ensures planned { IsPlan builder.now.plan }
{
    let plan = &builder.plan;
    planned(plan);
    let level = builder.level;
    let levels = plan.levels();
    if level > levels || builder.closed > levels - level {
        return None;
    }
    if builder.closed == 0 && level < levels && builder.taken == plan.count_under(level) {
        return None;
    }
    Some(levels - level)
}

/// The plan of a tree above as many data blocks as a level has parts: what is above the parts' digests.
fn joining_plan(plan: &Plan, level: usize) -> Plan
    requires { level ≤ level_count_of plan.now }
    ensures plan { result ≡ plan_of_join plan.now level }
    ensures levels { level_count_of result ≡ level_count_of plan.now - level }
    ensures planned { IsPlan result }
{
    planned(plan);
    match Plan::for_blocks(plan.settings(), plan.count_under(level), 0) {
        Ok(own) => own,
        Err(_) => *plan,
    }
}

/// The hash block that was handed out last, with its level and its place in the whole tree.
fn joined(plan: &Plan, level: usize, progress: &Progress) -> HashBlock
    requires some { 0 < progress.now.fed }
    requires most { progress.now.fed ≤ count_under plan.now level }
    requires closed { 0 < progress.now.closed }
    requires levels { level + progress.now.closed ≤ level_count_of plan.now }
    ensures level { level + progress.now.closed ≡ result.level + 1 }
    ensures index { result.index ≡ (progress.now.fed - 1) / fan plan.now.settings ^ progress.now.closed }
    ensures start { result.start ≡ start_byte_of plan.now result.level result.index }
    ensures at { result.at ≡ (result.level - level) * plan.now.settings.hash_block }
{
    planned(plan);
    let above = progress.closed - 1;
    let index = plan.index_above(progress.fed - 1, progress.closed);
    HashBlock {
        level: level + above,
        index,
        start: plan.start(level + above, index),
        at: above * plan.hash_block(),
    }
}

/// The digest that these bytes are.
fn digest_in(bytes: &[u8]) -> Digest
    requires some { 0 < length bytes.now }
    requires most { length bytes.now ≤ 64 }
    ensures { result ≡ bytes.now }
{
    Digest::from_bytes(bytes).unwrap()
}

/// Whether the hash block above the one that closed last closes before more digests come.
fn closes_above(own: &Plan, progress: &Progress) -> bool
    requires most { progress.now.fed ≤ own.now.blocks }
    ensures some { result ≡ true → (0 < progress.now.fed) × (0 < progress.now.closed)
        × (progress.now.closed < level_count_of own.now) }
    ensures closes { result ≡ true → (progress.now.fed ≡ own.now.blocks)
        ⊎ (fan own.now.settings ≤ (progress.now.fed - 1) / fan own.now.settings ^ progress.now.closed
        % fan own.now.settings + 1) }
    ensures last { result ≡ false → progress.now.fed ≡ own.now.blocks
        → (0 < progress.now.fed) × (0 < progress.now.closed) → level_count_of own.now ≤ progress.now.closed }
{
    let level = progress.closed;
    if level == 0 || level >= own.levels() || progress.fed == 0 {
        return false;
    }
    let fan = own.fan() as u64;
    let slot = own.index_above(progress.fed - 1, level) % fan;
    slot + 1 >= fan || progress.fed == own.blocks()
}

/// Closes the hash block above the one that closed last, if it closes before more digests come: whether it has. Else
/// the digest of the one that closed last has come to the open block above.
fn close_above(own: &Plan, progress: &mut Progress, opened: &mut [u8]) -> bool
    requires planned { IsPlan own.now }
    requires open_room { level_count_of own.now * own.now.settings.hash_block ≤ length opened.old }
    requires most { progress.old.fed ≤ own.now.blocks }
    requires within { progress.old.closed ≤ level_count_of own.now }
    ensures fed { progress.new.fed ≡ progress.old.fed }
    ensures closed { result ≡ true → (progress.new.closed ≡ progress.old.closed + 1)
        × (progress.old.closed < level_count_of own.now) × (0 < progress.old.fed) }
    ensures within { progress.new.closed ≤ level_count_of own.now }
    ensures none_closes { result ≡ false → (0 < progress.old.fed) × (0 < progress.old.closed)
        × (progress.old.closed < level_count_of own.now) → (progress.old.fed ≡ own.now.blocks → ⊥)
        × ((progress.old.fed - 1) / fan own.now.settings ^ progress.old.closed % fan own.now.settings + 1
        < fan own.now.settings) }
    ensures stands { (blocks : List (List ℕ)) (last : List ℕ) → length blocks ≡ own.now.blocks
        → JoinStands own.now.settings blocks (level_count_of own.now) progress.old.fed progress.old.closed opened.old
        last
        → ClosesAbove own.now.settings blocks (level_count_of own.now) progress.old.fed progress.old.closed result
        opened.new last }
{
    let level = progress.closed;
    if level == 0 || level >= own.levels() || progress.fed == 0 {
        return false;
    }
    let closes = carry_up(own, opened, progress.fed - 1, level);
    progress.closed = if closes { level + 1 } else { 0 };
    closes
}

/// Takes the next digest: whether the hash block above closes with it.
fn take_digest(
    own: &Plan,
    progress: &mut Progress,
    opened: &mut [u8],
    last: &mut [u8],
    digest: &[u8],
) -> bool
    requires planned { IsPlan own.now }
    requires open_room { level_count_of own.now * own.now.settings.hash_block ≤ length opened.old }
    requires last_room { length last.old ≡ digest_len own.now.settings }
    requires size { length digest.now ≡ digest_len own.now.settings }
    requires below { progress.old.fed < own.now.blocks }
    ensures fed { progress.new.fed ≡ progress.old.fed + 1 }
    ensures closed { result ≡ true → (progress.new.closed ≡ 1) × (0 < level_count_of own.now) }
    ensures none_closes { result ≡ false → (progress.new.closed ≡ 0)
        × (progress.new.fed ≡ own.now.blocks → level_count_of own.now ≡ 0) }
    ensures stands { (blocks : List (List ℕ)) → length blocks ≡ own.now.blocks
        → HasOpenBlocks own.now.settings blocks 0 (level_count_of own.now) progress.old.fed opened.old
        → digest.now ≡ level_digest own.now.settings blocks progress.old.fed 0
        → JoinStands own.now.settings blocks (level_count_of own.now) progress.new.fed progress.new.closed opened.new
        last.new }
{
    last.copy_from_slice(digest);
    let i = progress.fed;
    progress.fed = i + 1;
    progress.closed = 0;
    if own.levels() > 0 {
        let digest = digest_in(digest);
        if add_digest(own, opened, i, 0, &digest) {
            progress.closed = 1;
            return true;
        }
    }
    false
}

/// Takes digests until a hash block closes: how many bytes of them were taken, and whether one has closed. Without
/// digests all stays as it was, if none closes.
fn join_until_closed(
    own: &Plan,
    progress: &mut Progress,
    opened: &mut [u8],
    last: &mut [u8],
    digests: &[u8],
) -> (usize, bool)
    requires planned { IsPlan own.now }
    requires open_room { level_count_of own.now * own.now.settings.hash_block ≤ length opened.old }
    requires last_room { length last.old ≡ digest_len own.now.settings }
    requires whole { length digests.now % digest_len own.now.settings ≡ 0 }
    requires most { progress.old.fed + length digests.now / digest_len own.now.settings ≤ own.now.blocks }
    requires within { progress.old.closed ≤ level_count_of own.now }
    requires some_closed { progress.old.fed ≡ own.now.blocks → progress.old.closed ≡ 0 → level_count_of own.now ≡ 0 }
    ensures most { result.0 ≤ length digests.now }
    ensures whole { result.0 ≡ result.0 / digest_len own.now.settings * digest_len own.now.settings }
    ensures fed { progress.new.fed ≡ progress.old.fed + result.0 / digest_len own.now.settings }
    ensures closed { progress.new.closed ≤ level_count_of own.now }
    ensures none_closes { result.1 ≡ false → result.0 ≡ length digests.now }
    ensures done { result.1 ≡ false → progress.new.fed ≡ own.now.blocks → progress.new.closed ≡ level_count_of own.now }
    ensures closes { result.1 ≡ true → (0 < progress.new.closed) × (0 < progress.new.fed)
        × (result.0 ≡ 0 → progress.new.closed ≡ progress.old.closed + 1) }
    ensures stands { (blocks : List (List ℕ)) → length blocks ≡ own.now.blocks
        → JoinStands own.now.settings blocks (level_count_of own.now) progress.old.fed progress.old.closed opened.old
        last.old → HasDigests own.now.settings blocks progress.old.fed (take result.0 digests.now)
        → JoinsOn own.now.settings blocks (level_count_of own.now) progress.old.fed progress.old.closed result.1
        progress.new.fed progress.new.closed opened.new last.new }
{
    if digests.is_empty() && !closes_above(own, progress) {
        return (0, false);
    }
    if close_above(own, progress, opened) {
        return (0, true);
    }
    let len = own.digest_len();
    let mut taken = 0;
    while taken < digests.len() {
        let closes = take_digest(own, progress, opened, last, &digests[taken..taken + len]);
        taken += len;
        if closes {
            return (taken, true);
        }
    }
    (taken, false)
}
