//! The largest plans: as many levels as a plan can have, the longest stores, and a tree of many blocks.
use crate::cases::{AFTER, BEFORE, PADDED, Row, SHA1, SHA224, SHA256, SHA384, SHA512, settings};
use crate::trees::is_made;
use fixtures::same;
use std::alloc::Global;
use std::test::Fail;
use verity_hash::{Algorithm, SaltRule};
use verity_io::MOST_BYTES;
use verity_tree::{Plan, Store, TreeSettings};

/// The number of levels of a plan, the length of its store, and whether a store that is made fits.
type Numbers = (usize, usize, bool);

fn numbers_of(alloc: Global, plan: &Plan) -> Result<Numbers, Fail> {
    let store = Store::new(alloc, plan)?;
    Ok((plan.levels(), plan.store_length(), store.fits(plan)))
}

/// The numbers of the largest tree: its data ends within a data block of the largest offset.
fn largest(alloc: Global, settings: &TreeSettings) -> Result<Numbers, Fail> {
    let blocks = MOST_BYTES / u64::from(settings.data_block());
    numbers_of(alloc, &Plan::for_blocks(settings, blocks, 0)?)
}

/// The format and the function; the sizes of a data block and a hash block; how many levels the largest tree has, and
/// how many bytes its store: an open block for each level, a data block, and a hash block to compare with. The slots of
/// a hash block of 512 bytes are 16 of 32 bytes or 8 of 64, and in hash type 0 at most 16 of 20 or 28, or 8 of 48.
const LARGEST: [(SaltRule, Algorithm, (u32, u32), (usize, usize)); 12] = [
    (PADDED, SHA256, (64, 64), (57, 3776)),
    (PADDED, SHA512, (128, 128), (56, 7424)),
    (PADDED, SHA256, (4096, 4096), (8, 40_960)),
    (PADDED, SHA512, (524_288, 524_288), (4, 3_145_728)),
    (BEFORE, SHA256, (512, 512), (14, 8192)),
    (BEFORE, SHA512, (512, 512), (18, 10_240)),
    (AFTER, SHA384, (512, 512), (18, 10_240)),
    (AFTER, SHA224, (512, 512), (14, 8192)),
    (BEFORE, SHA1, (4096, 4096), (8, 40_960)),
    (BEFORE, SHA512, (512, 524_288), (5, 3_146_240)),
    (BEFORE, SHA512, (524_288, 512), (15, 532_480)),
    (BEFORE, SHA384, (524_288, 524_288), (4, 3_145_728)),
];

#[test]
fn the_largest_trees_have_stores(rt: HostRuntime) -> Result<(), Fail> {
    for &(rule, algorithm, sizes, (levels, length)) in &LARGEST {
        let found = largest(rt.alloc(), &settings(rule, algorithm, &[], sizes)?)?;
        let at = format_args!("{rule:?}, {algorithm:?}, {sizes:?}");
        same(at, found, (levels, length, true))?;
    }
    Ok(())
}

/// Trees with two slots in each hash block of 64 bytes, above 1, 2, 4, .. data blocks. The last has one block fewer
/// than a power of two, as 2^63 bytes are one too many.
#[test]
fn each_number_of_levels_has_a_store(rt: HostRuntime) -> Result<(), Fail> {
    let two_slots = settings(PADDED, SHA256, &[], (64, 64))?;
    for levels in 0..58usize {
        let blocks = (1_u64 << levels).min(MOST_BYTES / 64);
        let plan = Plan::for_blocks(&two_slots, blocks, 0)?;
        let length = levels.saturating_add(2).saturating_mul(64);
        let found = numbers_of(rt.alloc(), &plan)?;
        same(levels, found, (levels, length, true))?;
    }
    Ok(())
}

/// The numbers of a plan of this many of the largest data blocks, with hash blocks of a size.
fn store_numbers(alloc: Global, size: u32, blocks: u64) -> Result<Numbers, Fail> {
    let settings = settings(BEFORE, SHA256, &[], (524_288, size))?;
    numbers_of(alloc, &Plan::for_blocks(&settings, blocks, 1)?)
}

#[test]
fn the_longest_store_is_made(rt: HostRuntime) -> Result<(), Fail> {
    let cases = [
        (524_288, 17_000_000, (2, 2_097_152, true)),
        (512, 17_000_000_000_000, (11, 530_432, true)),
    ];
    for &(size, blocks, numbers) in &cases {
        same(size, store_numbers(rt.alloc(), size, blocks)?, numbers)?;
    }
    Ok(())
}

/// A tree of 12 levels above 2050 data blocks, the last of which isn't whole.
const MANY_BLOCKS: Row = (PADDED, SHA256, b"", (64, 64), (2, 32), (131_195, 12));

#[test]
fn a_tree_of_many_blocks_is_made(rt: HostRuntime) -> Result<(), Fail> {
    same("2050 blocks", is_made(rt.alloc(), &MANY_BLOCKS)?, true)
}
