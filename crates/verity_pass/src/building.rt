//! A tree that is built in one pass, as its data blocks come.
ghost use Rattle.std.specs.Prelude.{◌≡◌, length, IfErr, IfOk};
ghost use Rattle.verity_io.specs.Counting.{Counts, TheDevice, TheSource, failed_at};
ghost use Rattle.verity_pass.specs.Building.{Builds, BuildsOnDevice, IsOfSource, side_of};
ghost use Rattle.verity_blocks.specs.Levels.{data_blocks};
ghost use Rattle.verity_plan.specs.PlanCounts.{store_length_of};
ghost use Rattle.verity_plan.specs.Settings.{digest_len};

use crate::pass::one_pass::pass;
use crate::pass::pass_fault::{BlockFault, PassFault, SourceStop, Stop};
use crate::pass::writing::Writing;
use crate::store::Store;
use verity_hash::Digest;
use verity_io::{Device, Nowhere, Source};
use verity_plan::Plan;

/// Why a tree isn't built.
#[derive(Clone, Copy, Debug, PartialEq, Eq)]
pub enum BuildFault {
    /// The source ended before the end of this data block, counted from 0.
    SourceShort(u64),
    /// The source failed while this data block was read, counted from 0.
    SourceFailed(u64),
    /// This hash block could not be written; both are counted from 0, level 0 next to the data.
    DeviceFailed {
        /// The level.
        level: usize,
        /// The block of the level.
        block: u64,
    },
}

/// Builds the tree above the data of a source: reads the data once, writes each hash block once, in closing order and
/// at its place, and answers the root hash (Linux kernel, dm-verity page, "Hash Tree"). It takes no memory. The store
/// is one that `fits` the plan.
///
/// A fault leaves the hash blocks that closed before it; after `DeviceFailed` the failed block's own range is unknown.
/// How much was read of the source: all that the plan wants if a root is answered; all its bytes after
/// `SourceShort`; the data up to the block with which the hash block closed after `DeviceFailed`; the blocks before the
/// failed one, and less than one block more, after `SourceFailed`.
pub fn build<S: Source, D: Device>(
    plan: &Plan,
    store: &mut Store,
    source: &mut S,
    device: &mut D,
) -> Result<Digest, BuildFault>
    requires { store.old.length ≡ store_length_of plan.now }
    ensures kept { store.new ≡ store.old }
    ensures size { IfOk result (λ root. length root ≡ digest_len plan.now.settings) }
    ensures source_told { S.tells source.old → S.tells source.new }
    ensures device_told { D.tells device.old → D.tells device.new }

    // A failure is answered only if its count rose.
    ensures source_count { Counts (failed_at side_of TheSource result) (S.failures source.old) (S.failures source.new) }
    ensures device_count { Counts (failed_at side_of TheDevice result) (D.failures device.old) (D.failures device.new) }

    // The root is that of the levels over whole lists.
    ensures read { S.tells source.old → Builds plan.now result (S.remaining source.old) (S.remaining source.new) }
    ensures stands { S.tells source.old → D.tells device.old
        → BuildsOnDevice plan.now (data_blocks plan.now (S.remaining source.old))
        result (D.content device.old) (D.content device.new) }
{
    match pass(plan, &Writing, store.lend(), source, device) {
        Ok(root) => Ok(root),
        Err(PassFault::InData(SourceStop { block, why })) => match why {
            BlockFault::Short => Err(BuildFault::SourceShort(block)),
            BlockFault::Failed => Err(BuildFault::SourceFailed(block)),
        },
        Err(PassFault::AtBlock(Stop { level, block, .. })) => Err(BuildFault::DeviceFailed {
            level,
            block,
        }),
    }
}

/// The root hash of the tree above the data of a source, which is read once, as `build` reads it; nothing is written.
/// It takes no memory, and its only faults are those of the source. The store is one that `fits` the plan.
pub fn root_only<S: Source>(
    plan: &Plan,
    store: &mut Store,
    source: &mut S,
) -> Result<Digest, BuildFault>
    requires { store.old.length ≡ store_length_of plan.now }
    ensures kept { store.new ≡ store.old }
    ensures size { IfOk result (λ root. length root ≡ digest_len plan.now.settings) }
    ensures told { S.tells source.old → S.tells source.new }
    ensures count { Counts (failed_at side_of TheSource result) (S.failures source.old) (S.failures source.new) }
    ensures fault { IfErr result IsOfSource }
    ensures read { S.tells source.old → Builds plan.now result (S.remaining source.old) (S.remaining source.new) }
{
    build(plan, store, source, &mut Nowhere)
}
