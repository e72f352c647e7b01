//! A tree that is built as pieces of its data come, with each hash block handed out as it closes.
ghost use Rattle.std.specs.Prelude.{◌≡◌, ℕ, List, [], length, take, IfErr, IfOk, MatchOption};
ghost use Rattle.verity_plan.specs.PlanCounts.{level_count_of};
ghost use Rattle.verity_plan.specs.Settings.{digest_len};
ghost use Rattle.verity_builders.specs.Feeding.{Feeds, HasLast, IsFed, IsHandedOut, IsPlaced, Takes, end_fault, fault_in};
ghost use Rattle.verity_builders.specs.Feeding.{feed_fault, feeding_length};
ghost use Rattle.verity_blocks.specs.Levels.{data_blocks, root};

use crate::fed_tree::{digest_of_fed, feed_piece, last_handed_out};
use crate::feed_fault::FeedFault;
use verity_blocks::{HashBlock, Progress, planned, window_length};
use verity_hash::Digest;
use verity_plan::Plan;

/// A builder of the tree above data that comes in pieces, of as many bytes as the plan wants. It works in memory that is
/// handed in at each call, takes none itself, and hands out each hash block as it closes: all of them in closing order,
/// as `build` writes them.
///
/// It is plain numbers, which may be kept anywhere. Whatever stands in it, each call is safe and returns; its answers are
/// right where builder and memory are as the call before left them.
#[derive(Clone, Copy, Debug, PartialEq, Eq)]
pub struct TreeBuilder {
    /// The plan of the tree.
    pub plan: Plan,
    /// How many bytes were fed.
    pub fed: u64,
    /// Of how many levels the hash blocks above the last byte were handed out since it was fed.
    pub closed: usize,
}

/// How much of a piece was taken, and the hash block that is handed out.
#[derive(Clone, Copy, Debug, PartialEq, Eq)]
pub struct Fed {
    /// How many bytes of the piece were taken.
    pub taken: usize,
    /// The hash block that is handed out, if one is. Then the rest of the piece, perhaps of no bytes, is still to be fed.
    pub hash_block: Option<HashBlock>,
}

impl TreeBuilder {
    /// The length of the memory for a plan, in bytes: an open block for each level, and a window of up to eight data
    /// blocks.
    pub fn memory_length(plan: &Plan) -> usize
        ensures { result ≡ feeding_length plan.now.settings (level_count_of plan.now) }
    {
        planned(plan);
        plan.levels() * plan.hash_block() + window_length(plan.settings())
    }

    /// A builder to which nothing was fed yet. What stood in the memory doesn't count.
    pub fn begin(plan: &Plan, memory: &mut [u8]) -> TreeBuilder
        requires { length memory.old ≡ feeding_length plan.now.settings (level_count_of plan.now) }
        ensures new { result ≡ record { plan = plan.now; fed = 0; closed = 0 } }
        ensures fed { IsFed result memory.new [] }
    {
        planned(plan);
        memory[..plan.levels() * plan.hash_block()].fill(0);
        TreeBuilder {
            plan: *plan,
            fed: 0,
            closed: 0,
        }
    }

    /// Feeds a piece of the data: all of it, or its bytes up to those with which a hash block closes, which is handed out.
    /// Then the rest of the piece is to be fed, until no hash block is handed out any more. A hash block that closes with
    /// the last byte of a piece is handed out once more bytes come, and with the last byte of all at once: the blocks that
    /// close with it come one a call, for which a piece of no bytes will do. The last data block counts with the zeros that
    /// fill it (Linux kernel, fs-verity page, "Merkle tree"). The memory has the length `memory_length`.
    ///
    /// `Level` if more levels are counted as handed out than the tree has; else `TooLong` if there are more bytes with this
    /// piece than the plan wants. Then builder and memory stay as they were.
    pub fn feed(&mut self, memory: &mut [u8], piece: &[u8]) -> Result<Fed, FeedFault>
        requires { length memory.old ≡ feeding_length self.old.plan.settings (level_count_of self.old.plan) }
        ensures plan { self.new.plan ≡ self.old.plan }
        ensures fault { fault_in result ≡ feed_fault self.old (length piece.now) }
        ensures refused { IfErr result (λ _. (self.new ≡ self.old) × (memory.new ≡ memory.old)) }
        ensures takes { IfOk result (λ answer. Takes self.old self.new (length piece.now) answer) }
        ensures fed { (fed : List ℕ) → IsFed self.old memory.old fed
            → IfOk result (λ answer. Feeds self.old self.new fed (take answer.taken piece.now) memory.new answer.hash_block) }
    {
        let plan = self.plan;
        let mut progress = Progress {
            fed: self.fed,
            closed: self.closed,
        };
        match feed_piece(&plan, plan.levels(), &plan, 0, &mut progress, memory, piece) {
            Ok(fed) => {
                self.fed = progress.fed;
                self.closed = progress.closed;
                Ok(fed)
            }
            Err(fault) => Err(fault),
        }
    }

    /// The hash block that was handed out last, as `feed` answered it. It stands in the memory until `feed` takes bytes or
    /// hands out the next one, and can be asked for again: so a builder and its memory that are stored after a hash block
    /// was handed out and before it was written go on later, and none is missing.
    ///
    /// `None` if none was handed out since the last byte was fed. `Level` or `TooLong` as `feed` answers a piece of no bytes.
    /// Of other numbers that no call leaves, the block that it names means nothing.
    pub fn last_block(&self) -> Result<Option<HashBlock>, FeedFault>
        ensures fault { fault_in result ≡ feed_fault self.now 0 }
        ensures placed { IfOk result (λ last. MatchOption last (HasLast self.now → ⊥)
            (λ block. HasLast self.now × IsPlaced self.now.plan self.now.fed self.now.closed block)) }
        ensures stands { (memory fed : List ℕ) → IsFed self.now memory fed
            → IfOk result (λ last. MatchOption last (self.now.closed ≡ 0)
            (λ block. IsHandedOut self.now.plan fed memory block)) }
    {
        let plan = self.plan;
        let progress = Progress {
            fed: self.fed,
            closed: self.closed,
        };
        last_handed_out(&plan, plan.levels(), &plan, 0, &progress)
    }

    /// The root hash, when all bytes were fed and all hash blocks handed out. It can be asked for as often as one likes: builder
    /// and memory stay those of the same bytes. The memory has the length `memory_length`.
    ///
    /// `Level` if more levels are counted as handed out than the tree has; else `TooLong` or `TooShort` if more or fewer
    /// bytes were fed than the plan wants; else `Waiting` if a hash block is still to be handed out. Then the memory stays
    /// as it was.
    pub fn end(&self, memory: &mut [u8]) -> Result<Digest, FeedFault>
        requires { length memory.old ≡ feeding_length self.now.plan.settings (level_count_of self.now.plan) }
        ensures fault { fault_in result ≡ end_fault self.now }
        ensures refused { IfErr result (λ _. memory.new ≡ memory.old) }
        ensures size { IfOk result (λ answer. length answer ≡ digest_len self.now.plan.settings) }
        ensures root { (fed : List ℕ) → IsFed self.now memory.old fed
            → IfOk result (λ answer. answer ≡ root self.now.plan.settings (data_blocks self.now.plan fed)) }
        ensures stays { (fed : List ℕ) → IsFed self.now memory.old fed → IsFed self.now memory.new fed }
    {
        let plan = self.plan;
        let progress = Progress {
            fed: self.fed,
            closed: self.closed,
        };
        digest_of_fed(&plan, plan.levels(), &progress, memory)
    }
}
