//! A file's tree that is built as pieces of the file come, whose length isn't known before.
ghost use Rattle.std.specs.Prelude.{◌≡◌, ◌≤◌, ℕ, ◌+◌, ◌*◌, ◌++◌, List, [], length, IfErr, IfOk};
ghost use Rattle.verity_plan.specs.PlanCounts.{most_level_count};
ghost use Rattle.verity_plan.specs.Settings.{IsValid, digest_len};
ghost use Rattle.verity_builders.specs.Feeding.{IsFedFile, fault_in, feeding_length, file_fault};
ghost use Rattle.verity_blocks.specs.Levels.{root_of_file};

use crate::feed_fault::FeedFault;
use crate::feeding::pieces::take_short_piece;
use crate::feeding::steps::feed_all;
use verity_blocks::{planned, root_of_fed, window_length};
use verity_hash::Digest;
use verity_plan::{Plan, PlanFault, TreeSettings};

/// A builder of the tree above a file that comes in pieces and whose length isn't known before it ends. It works in memory
/// that is handed in at each call, and takes none itself.
///
/// It is plain numbers, which may be kept anywhere. Whatever stands in it, each call is safe and returns; its answers are
/// right where builder and memory are as the call before left them.
#[derive(Clone, Copy, Debug, PartialEq, Eq)]
pub struct FileBuilder {
    /// What the tree is made by.
    pub settings: TreeSettings,
    /// How many bytes were fed.
    pub fed: u64,
}

impl FileBuilder {
    /// The length of the memory for these settings, in bytes: an open block for each level that the largest file can have,
    /// and a window of up to eight data blocks.
    pub fn memory_length(settings: &TreeSettings) -> usize
        ensures { result ≡ feeding_length settings.now (most_level_count settings.now) }
    {
        open_length(settings) + window_length(settings)
    }

    /// A builder to which nothing was fed yet. What stood in the memory doesn't count.
    pub fn begin(settings: &TreeSettings, memory: &mut [u8]) -> FileBuilder
        requires { length memory.old ≡ feeding_length settings.now (most_level_count settings.now) }
        ensures new { result ≡ record { settings = settings.now; fed = 0 } }
        ensures fed { IsFedFile result memory.new [] }
    {
        memory[..open_length(settings)].fill(0);
        FileBuilder {
            settings: *settings,
            fed: 0,
        }
    }

    /// Feeds the next piece of the file, of any length. The memory has the length `memory_length`.
    ///
    /// `TooLarge` if so many bytes are too many for a tree. Then builder and memory stay as they were.
    pub fn feed(&mut self, memory: &mut [u8], piece: &[u8]) -> Result<(), FeedFault>
        requires { length memory.old ≡ feeding_length self.old.settings (most_level_count self.old.settings) }
        ensures fault { fault_in result ≡ file_fault self.old (length piece.now) }
        ensures settings { self.new.settings ≡ self.old.settings }
        ensures count { IfOk result (λ _. self.new.fed ≡ self.old.fed + length piece.now) }
        ensures refused { IfErr result (λ _. (self.new ≡ self.old) × (memory.new ≡ memory.old)) }
        ensures fed { (fed : List ℕ) → IsFedFile self.old memory.old fed
            → IfOk result (λ _. IsFedFile self.new memory.new (fed ++ piece.now)) }
    {
        let from = memory.len() - window_length(&self.settings);
        let Some(count) = self.fed.checked_add(piece.len() as u64) else {
            return Err(FeedFault::TooLarge);
        };
        let (opened, window) = memory.split_at_mut(from);
        if take_short_piece(window, self.fed, piece) {
            self.fed = count;
            return Ok(());
        }
        match Plan::for_bytes(&self.settings, count, 0) {
            Ok(plan) => {
                planned(&plan);
                feed_all(&plan, self.fed, opened, window, piece);
                self.fed = count;
                Ok(())
            }
            Err(PlanFault::NoData) => Ok(()),
            Err(PlanFault::TooLarge) => Err(FeedFault::TooLarge),
        }
    }

    /// The root hash of all bytes that were fed, the last block filled with zeros; zeros for an empty file (Linux kernel,
    /// fs-verity page, "Merkle tree").
    /// It can be asked for at any time, as often as one likes: builder and memory stay those of the same bytes, and feeding goes
    /// on. The memory has the length `memory_length`.
    ///
    /// `TooLarge` if the bytes are too many for a tree, which no call before leaves. Then the memory stays as it was.
    pub fn end(&self, memory: &mut [u8]) -> Result<Digest, FeedFault>
        requires { length memory.old ≡ feeding_length self.now.settings (most_level_count self.now.settings) }
        ensures fault { fault_in result ≡ file_fault self.now 0 }
        ensures refused { IfErr result (λ _. memory.new ≡ memory.old) }
        ensures size { IfOk result (λ answer. length answer ≡ digest_len self.now.settings) }
        ensures root { (fed : List ℕ) → IsFedFile self.now memory.old fed
            → IfOk result (λ answer. answer ≡ root_of_file self.now.settings (length fed) fed) }
        ensures stays { (fed : List ℕ) → IsFedFile self.now memory.old fed → IsFedFile self.now memory.new fed }
    {
        match Plan::for_bytes(&self.settings, self.fed, 0) {
            Ok(plan) => {
                planned(&plan);
                let (opened, window) = memory.split_at_mut(open_length(&self.settings));
                Ok(root_of_fed(&plan, opened, window))
            }
            Err(PlanFault::NoData) => Ok(Digest::zeros(self.settings.algorithm())),
            Err(PlanFault::TooLarge) => Err(FeedFault::TooLarge),
        }
    }
}

/// The length of the open blocks of the largest file, in bytes.
pub(crate) fn open_length(settings: &TreeSettings) -> usize
    ensures value { result ≡ most_level_count settings.now * settings.now.hash_block }
    ensures few { result ≤ 33030144 }
    ensures valid { IsValid settings.now }
{
    Plan::most_levels(settings) * settings.hash_block() as usize
}
