//! A data block that is checked by the hash blocks above it.
ghost use Rattle.std.specs.Prelude.{◌≡◌, ◌+◌, ◌*◌, ◌≤◌, length};
ghost use Rattle.std.specs.Str.{bytes_eq};
ghost use Rattle.verity_plan.specs.Settings.{digest_len, slot_width};
ghost use Rattle.verity_pass.specs.Verdicts.{digest_in};

use verity_hash::Digest;
use verity_plan::Plan;

/// Why a data block and its path aren't those under a root hash.
#[derive(Clone, Copy, Debug, PartialEq, Eq)]
pub enum PathFault {
    /// There is no data block of this number.
    Index,
    /// The block is not a data block long, or the path not one hash block a level.
    Length,
    /// The hash of the block below this level isn't the digest in its slot of the path's block; at the number of
    /// levels, it isn't the root hash.
    DiffersAt(usize),
}

ghost use Rattle.verity_pass.specs.Paths.{ChecksBlock};

/// Checks data block `i`, counted from 0, by its path, without the rest of the data: the hash blocks above it, joined,
/// level 0 first (Linux kernel, dm-verity page, "Hash Tree"). It takes no memory.
///
/// The first of these is the fault: `Index`, `Length`, the lowest level that differs.
pub fn check_block(
    plan: &Plan,
    i: u64,
    block: &[u8],
    path: &[u8],
    root: &Digest,
) -> Result<(), PathFault>
    ensures { ChecksBlock plan.now i block.now path.now root.now result }
{
    if i >= plan.blocks() {
        return Err(PathFault::Index);
    }
    let levels = plan.levels();
    let size = plan.hash_block();
    if block.len() != plan.data_block() || path.len() != levels * size {
        return Err(PathFault::Length);
    }
    let fan = plan.fan() as u64;
    let mut digest = plan.settings().hash(block);
    let mut index = i;
    for level in 0..levels {
        let above = &path[level * size..level * size + size];
        if !has_digest(plan, above, (index % fan) as usize, &digest) {
            return Err(PathFault::DiffersAt(level));
        }
        digest = plan.settings().hash(above);
        index /= fan;
    }
    if digest.as_bytes() == root.as_bytes() {
        Ok(())
    } else {
        Err(PathFault::DiffersAt(levels))
    }
}

/// Whether a hash block has this digest in a slot.
pub(crate) fn has_digest(plan: &Plan, block: &[u8], slot: usize, digest: &Digest) -> bool
    requires { slot * slot_width plan.now.settings + digest_len plan.now.settings ≤ length block.now }
    ensures { result ≡ bytes_eq digest.now (digest_in plan.now.settings block.now slot) }
{
    let at = slot * plan.settings().slot_width();
    digest.as_bytes() == &block[at..at + plan.digest_len()]
}
