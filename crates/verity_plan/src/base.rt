//! Where the hash area begins on a hash device, and where the tree in it.
ghost use Rattle.std.specs.Prelude.{◌≡◌, ◌<◌};
ghost use Rattle.verity_plan.specs.Plans.{base_of, multiple_of, offset_unit, plan_at};

use crate::{Plan, PlanFault, TreeSettings};
use verity_io::MOST_BYTES;

/// The length of a superblock, in bytes (cryptsetup's on-disk format page, "dm-verity header").
pub const SUPERBLOCK_SIZE: usize = 512;

/// The place of the first hash block, counted in hash blocks: the first whole one after a superblock at this offset in
/// bytes, or, without a superblock, the one at the offset (cryptsetup's on-disk format page; veritysetup(8),
/// `--hash-offset` and `--no-superblock`). `None` if the superblock's end, or the offset, would be past
/// `MOST_BYTES`. The size of a hash block, in bytes, is above 0.
pub fn base_of(offset: u64, superblock: bool, hash_block: u32) -> Option<u64>
    requires { 0 < hash_block }
    ensures { result ≡ base_of offset superblock hash_block }
{
    let size = u64::from(hash_block);
    if !superblock {
        return if offset <= MOST_BYTES {
            Some(offset / size)
        } else {
            None
        };
    }
    match offset.checked_add(SUPERBLOCK_SIZE as u64) {
        Some(end) if end <= MOST_BYTES => Some(end.div_ceil(size)),
        _ => None,
    }
}

/// What a hash offset is a multiple of: 512, and without a superblock the size of a hash block (veritysetup(8),
/// `--hash-offset`).
pub fn offset_unit(superblock: bool, tree: &TreeSettings) -> u64
    ensures value { result ≡ offset_unit superblock tree.now.hash_block }
    ensures some { 0 < result }
{
    if superblock {
        SUPERBLOCK_SIZE as u64
    } else {
        u64::from(tree.hash_block())
    }
}

/// This number of bytes, if it is a multiple of a unit.
pub fn multiple_of(unit: u64, bytes: u64) -> Option<u64>
    requires { 0 < unit }
    ensures { result ≡ multiple_of unit bytes }
{
    if bytes % unit == 0 { Some(bytes) } else { None }
}

/// A plan for this number of whole data blocks, with the tree at this offset in bytes, or after the superblock there
/// (cryptsetup's on-disk format page; veritysetup(8), `--hash-offset`).
///
/// `NoData` for no blocks; else `TooLarge` if the superblock's end, the data area or the hash area would go past
/// 2^63 - 1 bytes.
pub fn plan_at(
    tree: &TreeSettings,
    blocks: u64,
    offset: u64,
    superblock: bool,
) -> Result<Plan, PlanFault>
    ensures { result ≡ plan_at tree.now blocks offset superblock }
{
    match base_of(offset, superblock, tree.hash_block()) {
        Some(base) => Plan::for_blocks(tree, blocks, base),
        None if blocks == 0 => Err(PlanFault::NoData),
        None => Err(PlanFault::TooLarge),
    }
}
