//! A part of a tree that is built as pieces of its data come, apart from the other parts.
ghost use Rattle.std.specs.Prelude.{◌≡◌, ◌≤◌, ℕ, List, [], length, take, min, IfErr, IfOk, MatchOption, Some};
ghost use Rattle.verity_plan.specs.PlanCounts.{level_count_of};
ghost use Rattle.verity_plan.specs.Plans.{IsPlan};
ghost use Rattle.verity_plan.specs.Settings.{digest_len};
ghost use Rattle.verity_builders.specs.Feeding.{fault_in, feeding_length};
ghost use Rattle.verity_builders.specs.Parts.{FeedsPart, HasLastOfPart, HasPart, IsDigestOfPart, IsFedPart};
ghost use Rattle.verity_builders.specs.Parts.{IsHandedOutOfPart, IsPlacedOfPart, TakesOfPart, digest_fault, first_block};
ghost use Rattle.verity_builders.specs.Parts.{part_fault, blocks_in_part, piece_fault, plan_of_part};

use crate::fed_tree::{digest_of_fed, feed_piece, last_handed_out};
use crate::feed_fault::FeedFault;
use crate::tree_builder::Fed;
use verity_blocks::{HashBlock, Progress, planned, window_length};
use verity_hash::Digest;
use verity_plan::Plan;

/// A builder of a part of a tree, above data that comes in pieces. The parts of a level are built apart from one
/// another, by as many threads, processes or machines as there are, and in any order; `JoinBuilder` takes their
/// digests.
///
/// The part of a level is what stands below one of the digests that the level's hash blocks are made of: up to as many
/// data blocks as the level's power of the fan-out, and the hash blocks of the levels below (Linux kernel, dm-verity
/// page, "Hash Tree"). The parts of level 0 are data blocks; the one part of the level above the top is the whole tree,
/// and its digest the root hash. The last part of a level may have fewer data blocks, down to one, but has all the
/// levels.
///
/// It works in memory that is handed in at each call, takes none itself, and hands out each hash block of the part as
/// it closes, with its place on the whole tree's device. It is plain numbers, which may be kept anywhere. Whatever
/// stands in it, each call is safe and returns; its answers are right where builder and memory are as the call before
/// left them.
#[derive(Clone, Copy, Debug, PartialEq, Eq)]
pub struct PartBuilder {
    /// The plan of the whole tree.
    pub plan: Plan,
    /// The level to which the part's digest goes, counted from 0 next to the data: the part has the levels below.
    pub level: usize,
    /// The part's number in its level, counted from 0.
    pub part: u64,
    /// How many bytes of the part's data were fed.
    pub fed: u64,
    /// Of how many levels the hash blocks above the last byte were handed out since it was fed.
    pub closed: usize,
}

/// Why there is no such part, or join.
#[derive(Clone, Copy, Debug, PartialEq, Eq)]
pub enum PartFault {
    /// The tree has no such level, nor is it the one above the top.
    Level,
    /// The level has no part of this number.
    Part,
}

/// What a part is made of.
#[derive(Clone, Copy)]
pub(crate) struct OwnTree {
    /// The plan of the tree above its data alone.
    pub plan: Plan,
    /// The number of its first data block.
    pub first: u64,
}

/// How many data blocks the parts of a level have, or all data blocks if they are fewer.
fn blocks_in_part_of(plan: &Plan, level: usize) -> u64
    ensures { result ≡ min (blocks_in_part plan.now level) plan.now.blocks }
{
    let fan = plan.fan() as u64;
    let blocks = plan.blocks();
    let mut count = 1;
    for below in 0..level {
        if count >= blocks.div_ceil(fan) {
            return blocks;
        }
        count *= fan;
    }
    count
}

/// The tree above a part's data alone, or why there is no such part.
pub(crate) fn own_tree(plan: &Plan, level: usize, part: u64) -> Result<OwnTree, PartFault>
    ensures fault { IfErr result (λ fault. part_fault plan.now level part ≡ Some fault) }
    ensures planned { IfOk result (λ own. IsPlan plan.now) }
    ensures part { IfOk result (λ own. HasPart plan.now level part) }
    ensures plan { IfOk result (λ own. own.plan ≡ plan_of_part plan.now level part) }
    ensures first { IfOk result (λ own. own.first ≡ first_block plan.now level part) }
{
    if level > plan.levels() {
        return Err(PartFault::Level);
    }
    if part >= plan.count_under(level) {
        return Err(PartFault::Part);
    }
    planned(plan);
    let count = blocks_in_part_of(plan, level);
    let first = part * count;
    let block = plan.data_block() as u64;
    let wanted = (plan.wanted() - first * block).min(count * block);
    match Plan::for_bytes(plan.settings(), wanted, 0) {
        Ok(own) => Ok(OwnTree { plan: own, first }),
        Err(_) => Err(PartFault::Part),
    }
}

impl PartBuilder {
    /// How many data blocks the parts of a level have, but for the last one, which has what is left: the level's power
    /// of the fan-out, or all data blocks if they are fewer. There are as many parts as the plan's `count_under`.
    pub fn blocks(plan: &Plan, level: usize) -> u64
        ensures { result ≡ min (blocks_in_part plan.now level) plan.now.blocks }
    {
        blocks_in_part_of(plan, level)
    }

    /// The length of the memory for a part of a level, in bytes: an open block for each level below, and a window of up
    /// to eight data blocks. The level is at most the number of levels.
    pub fn memory_length(plan: &Plan, level: usize) -> usize
        requires { level ≤ level_count_of plan.now }
        ensures { result ≡ feeding_length plan.now.settings level }
    {
        planned(plan);
        level * plan.hash_block() + window_length(plan.settings())
    }

    /// A builder of this part of the level, to which nothing was fed yet. What stood in the memory doesn't count.
    ///
    /// `Level` if the tree has fewer levels; else `Part` if the level has fewer parts. Then the memory stays as it was.
    pub fn begin(
        plan: &Plan,
        level: usize,
        part: u64,
        memory: &mut [u8],
    ) -> Result<PartBuilder, PartFault>
        requires { length memory.old ≡ feeding_length plan.now.settings level }
        ensures fault { IfErr result (λ fault. part_fault plan.now level part ≡ Some fault) }
        ensures part { IfOk result (λ builder. HasPart plan.now level part) }
        ensures refused { IfErr result (λ _. memory.new ≡ memory.old) }
        ensures new { IfOk result (λ builder. builder
            ≡ record { plan = plan.now; level = level; part = part; fed = 0; closed = 0 }) }
        ensures fed { IfOk result (λ builder. IsFedPart builder memory.new []) }
    {
        if let Err(fault) = own_tree(plan, level, part) {
            return Err(fault);
        }
        planned(plan);
        memory[..level * plan.hash_block()].fill(0);
        Ok(PartBuilder {
            plan: *plan,
            level,
            part,
            fed: 0,
            closed: 0,
        })
    }

    /// Feeds a piece of the part's data: all of it, or its bytes up to those with which a hash block closes, which is
    /// handed out. Then the rest of the piece is to be fed, until no hash block is handed out any more. A hash block
    /// that closes with the last byte of a piece is handed out once more bytes come, and with the part's last byte at
    /// once: the blocks that close with it come one a call, for which a piece of no bytes will do. The last data block
    /// of all counts with the zeros that fill it (Linux kernel, fs-verity page, "Merkle tree"). The memory has the
    /// length `memory_length`.
    ///
    /// `Level` if the tree has no such part, or more levels are counted as handed out than the part has; else `TooLong`
    /// if there are more bytes with this piece than the part has. Then builder and memory stay as they were.
    pub fn feed(&mut self, memory: &mut [u8], piece: &[u8]) -> Result<Fed, FeedFault>
        requires { length memory.old ≡ feeding_length self.old.plan.settings self.old.level }
        ensures fault { fault_in result ≡ piece_fault self.old (length piece.now) }
        ensures refused { IfErr result (λ _. (self.new ≡ self.old) × (memory.new ≡ memory.old)) }
        ensures takes { IfOk result (λ answer. TakesOfPart self.old self.new (length piece.now) answer) }
        ensures fed { (fed : List ℕ) → IsFedPart self.old memory.old fed → IfOk result
            (λ answer. FeedsPart self.old self.new fed (take answer.taken piece.now) memory.new answer.hash_block) }
    {
        let Ok(own) = own_tree(&self.plan, self.level, self.part) else {
            return Err(FeedFault::Level);
        };
        let mut progress = Progress {
            fed: self.fed,
            closed: self.closed,
        };
        match feed_piece(
            &own.plan,
            self.level,
            &self.plan,
            own.first,
            &mut progress,
            memory,
            piece,
        ) {
            Ok(fed) => {
                self.fed = progress.fed;
                self.closed = progress.closed;
                Ok(fed)
            }
            Err(fault) => Err(fault),
        }
    }

    /// The hash block that was handed out last, as `feed` answered it. It stands in the memory until `feed` takes bytes
    /// or hands out the next one, and can be asked for again: so a builder and its memory that are stored after a hash
    /// block was handed out and before it was written go on later, and none is missing.
    ///
    /// `None` if none was handed out since the last byte was fed. `Level` or `TooLong` as `feed` answers a piece of no
    /// bytes. Of other numbers that no call leaves, the block that it names means nothing.
    pub fn last_block(&self) -> Result<Option<HashBlock>, FeedFault>
        ensures fault { fault_in result ≡ piece_fault self.now 0 }
        ensures placed { IfOk result (λ last. MatchOption last (HasLastOfPart self.now → ⊥)
            (λ block. HasLastOfPart self.now × IsPlacedOfPart self.now block)) }
        ensures stands { (memory fed : List ℕ) → IsFedPart self.now memory fed
            → IfOk result (λ last. MatchOption last (self.now.closed ≡ 0)
            (λ block. IsHandedOutOfPart self.now fed memory block)) }
    {
        let Ok(own) = own_tree(&self.plan, self.level, self.part) else {
            return Err(FeedFault::Level);
        };
        let progress = Progress {
            fed: self.fed,
            closed: self.closed,
        };
        last_handed_out(&own.plan, self.level, &self.plan, own.first, &progress)
    }

    /// The part's digest, when all its bytes were fed and all its hash blocks handed out: of its top hash block, or at
    /// level 0 of its data block. It can be asked for as often as one likes: builder and memory stay those of the same
    /// bytes. The memory has the length `memory_length`.
    ///
    /// `Level` if the tree has no such part, or more levels are counted as handed out than the part has; else `TooLong`
    /// or `TooShort` if more or fewer bytes were fed than the part has; else `Waiting` if a hash block is still to be
    /// handed out. Then the memory stays as it was.
    pub fn end(&self, memory: &mut [u8]) -> Result<Digest, FeedFault>
        requires { length memory.old ≡ feeding_length self.now.plan.settings self.now.level }
        ensures fault { fault_in result ≡ digest_fault self.now }
        ensures refused { IfErr result (λ _. memory.new ≡ memory.old) }
        ensures size { IfOk result (λ answer. length answer ≡ digest_len self.now.plan.settings) }
        ensures digest { (fed : List ℕ) → IsFedPart self.now memory.old fed
            → IfOk result (λ answer. IsDigestOfPart self.now fed answer) }
        ensures stays { (fed : List ℕ) → IsFedPart self.now memory.old fed → IsFedPart self.now memory.new fed }
    {
        let Ok(own) = own_tree(&self.plan, self.level, self.part) else {
            return Err(FeedFault::Level);
        };
        let progress = Progress {
            fed: self.fed,
            closed: self.closed,
        };
        digest_of_fed(&own.plan, self.level, &progress, memory)
    }
}
