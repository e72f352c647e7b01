//! A file's tree that is built as pieces of the file come, whose length isn't known before, with each hash block handed out.
ghost use Rattle.std.specs.Prelude.{◌≡◌, ◌<◌, ◌≤◌, ℕ, List, [], length, take, IfErr, IfOk};
ghost use Rattle.verity_plan.specs.PlanCounts.{level_count_of, most_level_count};
ghost use Rattle.verity_plan.specs.Settings.{digest_len};
ghost use Rattle.verity_builders.specs.Feeding.{fault_in, feeding_length};
ghost use Rattle.verity_builders.specs.FileTrees.{FeedsFile, IsFedFileTree, IsPlacedInFile, TakesOfFile, file_blocks, last_block_fault};
ghost use Rattle.verity_builders.specs.FileTrees.{end_index, piece_fault, root_fault};
ghost use Rattle.verity_blocks.specs.Levels.{root_of_file};
ghost use Rattle.verity_blocks.specs.TreeOnDevice.{tree_block};

use crate::feed_fault::FeedFault;
use crate::feeding::steps::feed_before_end;
use crate::file_builder::{FileBuilder, open_length};
use verity_blocks::{Progress, handed_out, last_block_of_fed, planned};
use verity_hash::Digest;
use verity_plan::{Plan, PlanFault, TreeSettings};

/// A builder of the tree above a file that comes in pieces and whose length isn't known before it ends, which hands out each
/// hash block as it closes, and those that are left where the file ends. It works in memory that is handed in at each call,
/// and takes none itself.
///
/// A hash block that `feed` hands out is the tree's however the file goes on; they come in closing order, as `build` writes
/// them, all but the last one of each level. At the end `end_block` gives these, and `end` the root hash.
///
/// It is plain numbers, which may be kept anywhere. Whatever stands in it, each call is safe and returns; its answers are
/// right where builder and memory are as the call before left them.
#[derive(Clone, Copy, Debug, PartialEq, Eq)]
pub struct FileTreeBuilder {
    /// What the tree is made by.
    pub settings: TreeSettings,
    /// How many bytes were fed.
    pub fed: u64,
    /// Of how many levels the hash blocks above the last byte were handed out since it was fed.
    pub closed: usize,
}

/// How much of a piece was taken, and the hash block that is handed out.
#[derive(Clone, Copy, Debug, PartialEq, Eq)]
pub struct FileFed {
    /// How many bytes of the piece were taken.
    pub taken: usize,
    /// The hash block that is handed out, if one is. Then the rest of the piece, of one byte at least, is still to be fed.
    pub hash_block: Option<FileHashBlock>,
}

/// A hash block that has closed, of a file whose length isn't known: its place among all hash blocks of the file isn't
/// either.
#[derive(Clone, Copy, Debug, PartialEq, Eq)]
pub struct FileHashBlock {
    /// Its level, counted from 0 next to the data.
    pub level: usize,
    /// Its number in the level, counted from 0.
    pub index: u64,
    /// The byte of the builder's memory at which it stands until the next call, as long as a hash block.
    pub at: usize,
}

/// The answer to a piece of no bytes.
const NOTHING_FED: FileFed = FileFed {
    taken: 0,
    hash_block: None,
};

impl FileTreeBuilder {
    /// The length of the memory for these settings, in bytes: an open block for each level that the largest file can have,
    /// and a window of up to eight data blocks. It is `FileBuilder`'s.
    pub fn memory_length(settings: &TreeSettings) -> usize
        ensures { result ≡ feeding_length settings.now (most_level_count settings.now) }
    {
        FileBuilder::memory_length(settings)
    }

    /// A builder to which nothing was fed yet. What stood in the memory doesn't count.
    pub fn begin(settings: &TreeSettings, memory: &mut [u8]) -> FileTreeBuilder
        requires { length memory.old ≡ feeding_length settings.now (most_level_count settings.now) }
        ensures new { result ≡ record { settings = settings.now; fed = 0; closed = 0 } }
        ensures fed { IsFedFileTree result memory.new [] }
    {
        let file = FileBuilder::begin(settings, memory);
        FileTreeBuilder {
            settings: file.settings,
            fed: file.fed,
            closed: 0,
        }
    }

    /// Feeds a piece of the file: all of it, or its bytes up to those with which a hash block closes, which is handed out.
    /// Then the rest of the piece is to be fed, until no hash block is handed out any more. A hash block that closes with
    /// the last byte of a piece is handed out by the next call that has bytes; if the file ends there, `end_block` gives
    /// it. The memory has the length `memory_length`.
    ///
    /// `TooLarge` if so many bytes are too many for a tree; else `Level` if more levels are counted as handed out than the
    /// tree of so many bytes has, which no call before leaves. Then builder and memory stay as they were.
    pub fn feed(&mut self, memory: &mut [u8], piece: &[u8]) -> Result<FileFed, FeedFault>
        requires { length memory.old ≡ feeding_length self.old.settings (most_level_count self.old.settings) }
        ensures fault { fault_in result ≡ piece_fault self.old (length piece.now) }
        ensures settings { self.new.settings ≡ self.old.settings }
        ensures refused { IfErr result (λ _. (self.new ≡ self.old) × (memory.new ≡ memory.old)) }
        ensures takes { IfOk result (λ answer. TakesOfFile self.old self.new (length piece.now) answer) }
        ensures fed { (fed : List ℕ) → IsFedFileTree self.old memory.old fed → IfOk result
            (λ answer. FeedsFile self.old self.new fed (take answer.taken piece.now) memory.new answer.hash_block) }
    {
        let from = open_length(&self.settings);
        let Some(count) = self.fed.checked_add(piece.len() as u64) else {
            return Err(FeedFault::TooLarge);
        };
        match Plan::for_bytes(&self.settings, count, 0) {
            Ok(plan) => {
                planned(&plan);
                let levels = plan.levels();
                if self.closed > levels {
                    return Err(FeedFault::Level);
                }
                if piece.is_empty() {
                    return Ok(NOTHING_FED);
                }
                let (opened, window) = memory.split_at_mut(from);
                let mut progress = Progress {
                    fed: self.fed,
                    closed: self.closed,
                };
                let (taken, closes) = feed_before_end(
                    &plan,
                    levels,
                    &mut progress,
                    opened,
                    window,
                    piece,
                );
                self.fed = progress.fed;
                self.closed = progress.closed;
                let hash_block = if closes {
                    Some(closed_block(&plan, &progress))
                } else {
                    None
                };
                Ok(FileFed { taken, hash_block })
            }
            Err(PlanFault::NoData) => {
                if self.closed > 0 {
                    return Err(FeedFault::Level);
                }
                Ok(NOTHING_FED)
            }
            Err(PlanFault::TooLarge) => Err(FeedFault::TooLarge),
        }
    }

    /// Writes the last hash block of a level, counted from 0 next to the data, as the tree of the file that ends here has
    /// it, and answers its number in the level (Linux kernel, fs-verity page, "Merkle tree"). With those of all levels and
    /// the hash blocks that were handed out the tree is whole. If the file goes on they aren't final: they can be asked for
    /// at any time, in any order and as often as one likes; builder and memory stay those of the same bytes, and feeding
    /// goes on. The memory has the length `memory_length`, `block` that of a hash block.
    ///
    /// `Waiting` if a hash block was handed out and the rest of its piece is still to be fed; else `TooLarge` if the bytes
    /// are too many for a tree, which no call before leaves; else `Level` if the file's tree has no such level: that of a
    /// file of up to one data block has none. Then memory and block stay as they were.
    pub fn end_block(
        &self,
        memory: &mut [u8],
        level: usize,
        block: &mut [u8],
    ) -> Result<u64, FeedFault>
        requires memory { length memory.old ≡ feeding_length self.now.settings (most_level_count self.now.settings) }
        requires block { length block.old ≡ self.now.settings.hash_block }
        ensures fault { fault_in result ≡ last_block_fault self.now level }
        ensures refused { IfErr result (λ _. (memory.new ≡ memory.old) × (block.new ≡ block.old)) }
        ensures index { IfOk result (λ index. index ≡ end_index self.now.settings self.now.fed level) }
        ensures block { (fed : List ℕ) → IsFedFileTree self.now memory.old fed → IfOk result
            (λ index. block.new ≡ tree_block self.now.settings (file_blocks self.now.settings fed) level index) }
        ensures stays { (fed : List ℕ) → IsFedFileTree self.now memory.old fed → IsFedFileTree self.now memory.new fed }
    {
        if self.closed > 0 {
            return Err(FeedFault::Waiting);
        }
        let from = open_length(&self.settings);
        match Plan::for_bytes(&self.settings, self.fed, 0) {
            Ok(plan) => {
                planned(&plan);
                if level >= plan.levels() {
                    return Err(FeedFault::Level);
                }
                let (opened, window) = memory.split_at_mut(from);
                Ok(last_block_of_fed(&plan, opened, window, level, block))
            }
            Err(PlanFault::NoData) => Err(FeedFault::Level),
            Err(PlanFault::TooLarge) => Err(FeedFault::TooLarge),
        }
    }

    /// The root hash of all bytes that were fed, as `FileBuilder::end` gives it: the last block filled with zeros, and zeros
    /// for an empty file (Linux kernel, fs-verity page, "Merkle tree"). It can be asked for as often as one likes: builder
    /// and memory stay those of the same bytes, and feeding goes on. The memory has the length `memory_length`.
    ///
    /// `Waiting` if a hash block was handed out and the rest of its piece is still to be fed; else `TooLarge` if the bytes
    /// are too many for a tree, which no call before leaves. Then the memory stays as it was.
    pub fn end(&self, memory: &mut [u8]) -> Result<Digest, FeedFault>
        requires { length memory.old ≡ feeding_length self.now.settings (most_level_count self.now.settings) }
        ensures fault { fault_in result ≡ root_fault self.now }
        ensures refused { IfErr result (λ _. memory.new ≡ memory.old) }
        ensures size { IfOk result (λ answer. length answer ≡ digest_len self.now.settings) }
        ensures root { (fed : List ℕ) → IsFedFileTree self.now memory.old fed
            → IfOk result (λ answer. answer ≡ root_of_file self.now.settings (length fed) fed) }
        ensures stays { (fed : List ℕ) → IsFedFileTree self.now memory.old fed → IsFedFileTree self.now memory.new fed }
    {
        if self.closed > 0 {
            return Err(FeedFault::Waiting);
        }
        let file = FileBuilder {
            settings: self.settings,
            fed: self.fed,
        };
        file.end(memory)
    }
}

/// The hash block that was handed out last, without a place on a device.
fn closed_block(plan: &Plan, progress: &Progress) -> FileHashBlock
    requires some { 0 < progress.now.fed }
    requires most { progress.now.fed ≤ plan.now.wanted }
    requires closed { 0 < progress.now.closed }
    requires level { progress.now.closed ≤ level_count_of plan.now }
    ensures placed { IsPlacedInFile plan.now.settings progress.now.fed progress.now.closed result }
    ensures level { result.level < level_count_of plan.now }
{
    planned(plan);
    let block = handed_out(plan, 0, progress);
    FileHashBlock {
        level: block.level,
        index: block.index,
        at: block.at,
    }
}
