//! What is read, and where each hash block goes.
ghost use Rattle.std.specs.Prelude.{◌≡◌, ℕ, ◌+◌, ◌-◌, ◌*◌, ◌/◌, ◌^◌, ◌≤◌, ◌<◌};
ghost use Rattle.verity_io.specs.Writing.{most_bytes};
ghost use Rattle.verity_plan.specs.Plans.{PlanFields, IsPlan, start_byte_of, end_place_of, HasBlock, checked_plan};
ghost use Rattle.verity_plan.specs.Plans.{plan_for_blocks, plan_for_bytes, level_count, blocks_from};
ghost use Rattle.verity_plan.specs.PlanCounts.{level_count_of, level_size_of, place_of, store_length_of, count_under};
ghost use Rattle.verity_plan.specs.PlanCounts.{most_level_count};
ghost use Rattle.verity_plan.specs.Settings.{digest_len, fan, slot_width};

use crate::{PlanFault, TreeSettings};
use std::marker::Model;
use verity_io::MOST_BYTES;

/// A plan for the tree above some data: how many blocks there are, how many bytes are read for them, and where each
/// hash block goes. It takes no memory of its own.
#[derive(Clone, Copy, Debug, PartialEq, Eq)]
pub struct Plan {
    settings: TreeSettings,
    blocks: u64,
    wanted: u64,
    base: u64,
    levels: usize,
    end: u64,
}

impl Model for Plan {
    ghost use Rattle.verity_plan.specs.Plans.{PlanFields, IsPlan, start_byte_of, end_place_of};
    ghost use Rattle.verity_plan.specs.PlanCounts.{level_count_of};
    ghost use Rattle.std.specs.Prelude.{◌≡◌};

    ghost Value = { PlanFields };

    ghost view = { λ p. record { settings = p.settings; blocks = p.blocks; wanted = p.wanted; base = p.base } };

    ghost use Rattle.verity_plan.specs.PlanFields.{IsComputed, fields_of, fields_back};

    ghost invariant = { IsComputed };

    ghost inverse = { fields_of };

    ghost inverse_ok = { λ p computed. fields_back p computed };
}

ghost use Rattle.std.specs.Int.{div_ceil};

impl Plan {
    /// A plan for a number of whole data blocks, with the tree from hash block `base` on (Linux kernel, dm-verity page,
    /// "Construction Parameters").
    ///
    /// `NoData` if there are no blocks; else `TooLarge` if the data area or the hash area, which ends after the last
    /// hash block, would go past 2^63 - 1 bytes.
    pub fn for_blocks(settings: &TreeSettings, blocks: u64, base: u64) -> Result<Plan, PlanFault>
        ensures { result ≡ plan_for_blocks settings.now blocks base }
    {
        match blocks.checked_mul(u64::from(settings.data_block())) {
            Some(wanted) => Plan::try_new(settings, blocks, wanted, base),
            None => Err(PlanFault::TooLarge),
        }
    }

    /// A plan for a number of bytes, the last data block perhaps not whole, with the tree from hash block `base` on
    /// (Linux kernel, fs-verity page, "Merkle tree").
    ///
    /// `NoData` if there are no bytes; else `TooLarge` if the data area, in whole blocks, or the hash area would go
    /// past 2^63 - 1 bytes.
    pub fn for_bytes(settings: &TreeSettings, size: u64, base: u64) -> Result<Plan, PlanFault>
        ensures { result ≡ plan_for_bytes settings.now size base }
    {
        let blocks = size.div_ceil(u64::from(settings.data_block()));
        Plan::try_new(settings, blocks, size, base)
    }

    fn try_new(
        settings: &TreeSettings,
        blocks: u64,
        wanted: u64,
        base: u64,
    ) -> Result<Plan, PlanFault>
        requires { blocks ≡ div_ceil wanted settings.now.data_block }
        ensures { result ≡ checked_plan
            (record { settings = settings.now; blocks = blocks; wanted = wanted; base = base }) }
    {
        if blocks == 0 {
            return Err(PlanFault::NoData);
        }
        let most_blocks = MOST_BYTES / u64::from(settings.data_block());
        let most_end = MOST_BYTES / u64::from(settings.hash_block());
        if blocks > most_blocks || base > most_end {
            return Err(PlanFault::TooLarge);
        }
        let tree = levels_above(settings.fan() as u64, blocks);
        let end = base + tree.blocks;
        if end > most_end {
            return Err(PlanFault::TooLarge);
        }
        Ok(Plan {
            settings: *settings,
            blocks,
            wanted,
            base,
            levels: tree.levels,
            end,
        })
    }

    /// The number of levels of the largest tree under these settings, above as many data blocks as 2^63 - 1 bytes have
    /// room for: no plan has more.
    pub fn most_levels(settings: &TreeSettings) -> usize
        ensures value { result ≡ most_level_count settings.now }
        ensures few { result ≤ 63 }
    {
        let largest = MOST_BYTES >> settings.data_block().ilog2();
        levels_above(settings.fan() as u64, largest).levels
    }

    /// What the tree is made by.
    pub fn settings(&self) -> &TreeSettings
        ensures { result.now ≡ self.now.settings }
    {
        &self.settings
    }

    /// The place of the first hash block, counted in hash blocks.
    pub fn base(&self) -> u64
        ensures { result ≡ self.now.base }
    {
        self.base
    }

    /// The number of data blocks, at least 1.
    pub fn blocks(&self) -> u64
        ensures value { result ≡ self.now.blocks }
        ensures planned { IsPlan self.now }
    {
        self.blocks
    }

    /// The number of bytes to be read.
    pub fn wanted(&self) -> u64
        ensures value { result ≡ self.now.wanted }
        ensures planned { IsPlan self.now }
    {
        self.wanted
    }

    /// The number of levels: 0 for a single data block (Linux kernel, dm-verity page, "Hash Tree").
    pub fn levels(&self) -> usize
        ensures { result ≡ level_count_of self.now }
    {
        self.levels
    }

    /// The number of slots of a hash block.
    pub fn fan(&self) -> usize
        ensures value { result ≡ fan self.now.settings }
        ensures two { 2 ≤ result }
        ensures fits { fan self.now.settings * slot_width self.now.settings ≤ self.now.settings.hash_block }
    {
        self.settings.fan()
    }

    /// The byte at which a block of a level stands.
    pub fn start(&self, level: usize, index: u64) -> u64
        requires { HasBlock self.now level index }
        ensures value { result ≡ start_byte_of self.now level index }
        ensures room { result + self.now.settings.hash_block ≤ most_bytes }
    {
        self.place(level, index) * u64::from(self.settings.hash_block())
    }

    /// The number of the block that stands so many levels above data block `i`, counted from 0 in its level: the hash
    /// block of level 0 stands one level above (Linux kernel, dm-verity page, "Hash Tree").
    pub fn index_above(&self, i: u64, levels: usize) -> u64
        ensures { result ≡ i / fan self.now.settings ^ levels }
    {
        let fan = self.settings.fan() as u64;
        let mut index = i;
        for below in 0..levels {
            index /= fan;
        }
        index
    }

    /// The byte at which the hash block of a level stands that is above data block `i`.
    pub fn start_above(&self, i: u64, level: usize) -> u64
        requires index { i < self.now.blocks }
        requires level { level < level_count_of self.now }
        ensures value { result ≡ start_byte_of self.now level (i / fan self.now.settings ^ (level + 1)) }
        ensures room { result + self.now.settings.hash_block ≤ most_bytes }
    {
        // Called for the proof: its contract says that the plan can be carried out, so it has few levels.
        let _blocks = self.blocks();
        self.start(level, self.index_above(i, level + 1))
    }

    /// The length of a digest, in bytes.
    pub fn digest_len(&self) -> usize
        ensures { result ≡ digest_len self.now.settings }
    {
        self.settings.algorithm().digest_len()
    }

    /// The size of a data block, in bytes.
    pub fn data_block(&self) -> usize
        ensures { result ≡ self.now.settings.data_block }
    {
        self.settings.data_block() as usize
    }

    /// The size of a hash block, in bytes.
    pub fn hash_block(&self) -> usize
        ensures { result ≡ self.now.settings.hash_block }
    {
        self.settings.hash_block() as usize
    }

    /// The place after the last hash block, counted in hash blocks.
    pub fn end(&self) -> u64
        ensures { result ≡ end_place_of self.now }
    {
        self.end
    }

    /// The length of a store for this plan, in bytes: an open block for each level, a data block, and a hash block to
    /// compare with.
    pub fn store_length(&self) -> usize
        ensures { result ≡ store_length_of self.now }
    {
        let hash_block = self.settings.hash_block() as usize;
        self.levels * hash_block + self.settings.data_block() as usize + hash_block
    }

    /// The number of blocks of a level of the tree, level 0 next to the data. The level is below the number of levels.
    pub fn level_size(&self, level: usize) -> u64
        requires { level < level_count_of self.now }
        ensures { result ≡ level_size_of self.now level }
    {
        self.count_under(level).div_ceil(self.fan() as u64)
    }

    /// The number of blocks one level below a level: the data blocks below level 0.
    pub fn count_under(&self, level: usize) -> u64
        requires { level ≤ level_count_of self.now }
        ensures { result ≡ count_under self.now level }
    {
        let fan = self.settings.fan() as u64;
        let mut count = self.blocks;
        for below in 0..level {
            count = count.div_ceil(fan);
        }
        count
    }

    /// The place of a block of a level, counted in hash blocks: the top level stands first (Linux kernel, dm-verity
    /// page, "On-disk format"). The level is below the number of levels, and the index below its number of blocks.
    pub fn place(&self, level: usize, index: u64) -> u64
        requires { HasBlock self.now level index }
        ensures { result ≡ place_of self.now level index }
    {
        let fan = self.settings.fan() as u64;
        let mut count = self.blocks;
        let mut first = self.end;
        for below in 0..level + 1 {
            count = count.div_ceil(fan);
            first -= count;
        }
        first + index
    }
}

/// The numbers of the tree above some data blocks.
#[derive(Clone, Copy)]
struct TreeCounts {
    /// The number of levels.
    levels: usize,
    /// The number of hash blocks of all levels.
    blocks: u64,
}

/// How many levels there are above some data blocks, and how many hash blocks in all.
fn levels_above(fan: u64, blocks: u64) -> TreeCounts
    requires two { 2 ≤ fan }
    requires power { (k : ℕ) × (fan ≡ 2 ^ k) }
    requires some { 0 < blocks }
    requires most { blocks ≤ 2 ^ 58 - 1 }
    ensures levels { result.levels ≡ level_count fan blocks }
    ensures blocks { result.blocks ≡ blocks_from fan blocks 0 (level_count fan blocks) }
    ensures most { result.blocks ≤ 2 * blocks }
{
    // The fan-out is a power of two: a shift does it, in a tenth of the time that a division takes.
    let power = fan.ilog2();
    let mut count = blocks;
    let mut tree = TreeCounts {
        levels: 0,
        blocks: 0,
    };
    'levels: while count > 1 {
        count = ((count - 1) >> power) + 1;
        tree.levels += 1;
        tree.blocks += count;
    }
    tree
}
