//! Trees of all shapes beside trees made from plain lists of bytes and hashed with `sha1` and `sha2`, and a plan's
//! numbers.
use crate::cases::{AFTER, BEFORE, Case, PADDED, Row, SHA1, SHA224, SHA256, SHA384, SHA512};
use fixtures::{Shape, Tree, same};
use std::alloc::{AllocError, Global};
use std::test::Fail;
use verity_hash::Algorithm;
use verity_tree::{
    HashType, MemorySource, Plan, SettingFault, Store, TreeSettings, build, compare,
    root_by_levels, root_only,
};

/// SHA-256, blocks of 512 bytes, no salt.
pub fn small() -> Result<TreeSettings, SettingFault> {
    TreeSettings::verity(Algorithm::Sha256, HashType::Current, &[], 512, 512)
}

/// The tree made with `sha2` with this many levels above some data.
pub fn small_tree(alloc: Global, data: &[u8], levels: usize) -> Result<Tree, AllocError> {
    Shape::new(alloc, Algorithm::Sha256, (512, 512), (16, 32)).tree(alloc, data, levels)
}

#[test]
fn a_plan_has_numbers() -> Result<(), Fail> {
    let plan = Plan::for_blocks(&small()?, 257, 1)?;
    let numbers = (plan.fan(), plan.levels(), plan.end());
    same("257 blocks", numbers, (16, 3, 21))
}

/// The largest block size of dm-verity.
const LARGEST: u32 = 524_288;

/// The last block isn't full in those of an odd size.
const SHAPES: [Row; 14] = [
    (BEFORE, SHA256, b"", (512, 512), (16, 32), (512, 0)),
    (PADDED, SHA256, b"salt", (512, 512), (16, 32), (8805, 2)),
    (PADDED, SHA512, b"salt", (128, 128), (2, 64), (1153, 4)),
    (BEFORE, SHA512, &[7; 256], (1024, 512), (8, 64), (66_560, 3)),
    (BEFORE, SHA224, b"salt", (512, 1024), (32, 32), (16_896, 2)),
    (BEFORE, SHA1, b"", (512, 512), (16, 32), (8704, 2)),
    (AFTER, SHA1, b"", (512, 512), (16, 20), (8704, 2)),
    (AFTER, SHA384, b"salt", (512, 512), (8, 48), (4608, 2)),
    (
        PADDED,
        SHA256,
        b"salt",
        (16_384, 16_384),
        (512, 32),
        (147_357, 1),
    ),
    (
        BEFORE,
        SHA256,
        b"salt",
        (32_768, 512),
        (16, 32),
        (131_072, 1),
    ),
    (AFTER, SHA512, b"salt", (32_768, 512), (8, 64), (163_739, 1)),
    (
        PADDED,
        SHA512,
        b"",
        (32_768, 32_768),
        (512, 64),
        (163_839, 1),
    ),
    (
        PADDED,
        SHA256,
        b"salt",
        (65_536, 65_536),
        (2048, 32),
        (196_507, 1),
    ),
    (
        BEFORE,
        SHA256,
        b"salt",
        (LARGEST, LARGEST),
        (16_384, 32),
        (1_048_576, 1),
    ),
];

/// Whether a tree is built as from plain lists and found to be that of its data.
fn is_built(alloc: Global, case: &Case) -> Result<bool, Fail> {
    let mut store = Store::new(alloc, &case.plan)?;
    let mut device = case.device(alloc)?;
    let mut source = MemorySource::new(case.data.as_slice());
    let mut again = MemorySource::new(case.data.as_slice());
    if !store.fits(&case.plan) {
        return Ok(false);
    }
    let built = build(&case.plan, &mut store, &mut source, &mut device);
    let verdict = compare(&case.plan, &mut store, &mut again, &mut device, &case.root);
    Ok(
        built == Ok(case.root)
            && verdict == Ok(())
            && source.rest().is_empty()
            && case.is_on(alloc, &device)?,
    )
}

/// Whether the root hash alone, and that made by levels, are those from plain lists.
fn has_root(alloc: Global, case: &Case) -> Result<bool, Fail> {
    let (plan, bytes) = (&case.plan, case.data.as_slice());
    let mut store = Store::new(alloc, plan)?;
    if !store.fits(plan) || bytes.len() as u64 != plan.wanted() {
        return Ok(false);
    }
    let alone = root_only(plan, &mut store, &mut MemorySource::new(bytes));
    Ok(alone == Ok(case.root) && root_by_levels(alloc, plan, bytes)? == case.root)
}

/// Whether a row's plan has the levels of its tree, and the tree and its root hash are made as from plain lists.
pub fn is_made(alloc: Global, row: &Row) -> Result<bool, Fail> {
    let case = Case::new(alloc, row)?;
    if case.plan.levels() != case.tree.levels.len() {
        return Ok(false);
    }
    Ok(is_built(alloc, &case)? && has_root(alloc, &case)?)
}

#[test]
fn trees_of_all_shapes_are_made(rt: HostRuntime) -> Result<(), Fail> {
    for row in &SHAPES {
        same(format_args!("{row:?}"), is_made(rt.alloc(), row)?, true)?;
    }
    Ok(())
}
