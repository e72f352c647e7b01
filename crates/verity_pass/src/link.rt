//! A block that is checked by the one hash block above it, or by the root hash.
ghost use Rattle.std.specs.Prelude.{◌≡◌};
ghost use Rattle.verity_pass.specs.Links.{block_size_up, checked_link, checked_top};

use crate::path::has_digest;
use verity_hash::Digest;
use verity_plan::Plan;

/// Why a block isn't the one that the hash block above it, or the root hash, stands for.
#[derive(Clone, Copy, Debug, PartialEq, Eq)]
pub enum LinkFault {
    /// There is no data block of this number.
    Index,
    /// The tree has no level of this number.
    Level,
    /// The block, or the hash block above it, has another length.
    Length,
    /// The hash of the block isn't the digest above it.
    Differs,
}

/// Checks one block by the hash block of a level above it, with which data block `i`, counted from 0, is checked (Linux
/// kernel, dm-verity page, "Hash Tree"). For level 0 the block is the data block itself, and for a higher level the hash
/// block one level down. Whoever trusts `above` can trust a block that is accepted. It takes no memory.
///
/// The first of these is the fault: `Index`, `Level`, `Length`, `Differs`.
pub fn check_link(
    plan: &Plan,
    i: u64,
    level: usize,
    block: &[u8],
    above: &[u8],
) -> Result<(), LinkFault>
    ensures { result ≡ checked_link plan.now i level block.now above.now }
{
    if i >= plan.blocks() {
        return Err(LinkFault::Index);
    }
    if level >= plan.levels() {
        return Err(LinkFault::Level);
    }
    if block.len() != block_size_up(plan, level) || above.len() != plan.hash_block() {
        return Err(LinkFault::Length);
    }
    let digest = plan.settings().hash(block);
    let slot = (plan.index_above(i, level) % plan.fan() as u64) as usize;
    if has_digest(plan, above, slot, &digest) {
        Ok(())
    } else {
        Err(LinkFault::Differs)
    }
}

/// Checks the top block by the root hash: the one hash block of the top level, or the data block if it is the only one
/// (Linux kernel, dm-verity page, "Hash Tree"). Data block `i`, counted from 0, is the one that is checked with it. It
/// takes no memory.
///
/// The first of these is the fault: `Index`, `Length`, `Differs`.
pub fn check_top(plan: &Plan, i: u64, block: &[u8], root: &Digest) -> Result<(), LinkFault>
    ensures { result ≡ checked_top plan.now i block.now root.now }
{
    if i >= plan.blocks() {
        return Err(LinkFault::Index);
    }
    if block.len() != block_size_up(plan, plan.levels()) {
        return Err(LinkFault::Length);
    }
    if plan.settings().hash(block).as_bytes() == root.as_bytes() {
        Ok(())
    } else {
        Err(LinkFault::Differs)
    }
}

/// The length, in bytes, of a block that stands so many levels above the data: of a data block, or of a hash block.
fn block_size_up(plan: &Plan, levels: usize) -> usize
    ensures { result ≡ block_size_up plan.now.settings levels }
{
    if levels == 0 {
        plan.data_block()
    } else {
        plan.hash_block()
    }
}
