//! A stored tree that is compared in one pass with the data.
ghost use Rattle.std.specs.Prelude.{◌≡◌, length};
ghost use Rattle.verity_io.specs.Counting.{Counts, TheDevice, TheSource, failed_at};
ghost use Rattle.verity_plan.specs.PlanCounts.{store_length_of};
ghost use Rattle.verity_pass.specs.Comparing.{CompareReads, Judges, side_of};

use crate::part::Part;
use crate::pass::comparing::{CompareStop, Comparing};
use crate::pass::one_pass::pass;
use crate::pass::pass_fault::{BlockFault, PassFault, SourceStop, Stop};
use crate::store::Store;
use verity_hash::Digest;
use verity_io::{Device, Source};
use verity_plan::Plan;

/// Why a stored tree isn't the one above the data. All numbers are counted from 0, and level 0 is next to the data.
#[derive(Clone, Copy, Debug, PartialEq, Eq)]
pub enum CompareFault {
    /// The source ended before the end of this data block.
    SourceShort(u64),
    /// The source failed while this data block was read.
    SourceFailed(u64),
    /// This hash block could not be read.
    DeviceFailed {
        /// The level.
        level: usize,
        /// The block of the level.
        block: u64,
    },
    /// This hash block is not the tree's, and the first in closing order that isn't.
    Differs {
        /// The level.
        level: usize,
        /// The block of the level.
        block: u64,
        /// Where it differs.
        part: Part,
    },
    /// All hash blocks are the tree's, and the root hash is another: this one.
    RootDiffers(Digest),
}

/// Compares a stored tree with the one above the data of a source, which is read once: every byte of every hash block,
/// in closing order, and then the root hash (veritysetup(8), `verify`). It writes nothing and takes no memory. The
/// store is one that fits the plan.
///
/// The fault is the first block that differs; short data or a failure only if no block that closed before it differs;
/// and another root only if all blocks are equal.
pub fn compare<S: Source, D: Device>(
    plan: &Plan,
    store: &mut Store,
    source: &mut S,
    device: &mut D,
    root: &Digest,
) -> Result<(), CompareFault>
    requires { store.old.length ≡ store_length_of plan.now }
    ensures kept { store.new ≡ store.old }
    ensures stands { D.tells device.old → D.content device.new ≡ D.content device.old }
    ensures source_told { S.tells source.old → S.tells source.new }
    ensures device_told { D.tells device.old → D.tells device.new }

    // A failure is answered only if its count rose.
    ensures source_count { Counts (failed_at side_of TheSource result) (S.failures source.old) (S.failures source.new) }
    ensures device_count { Counts (failed_at side_of TheDevice result) (D.failures device.old) (D.failures device.new) }

    ensures read { S.tells source.old → CompareReads plan.now result (S.remaining source.old) (S.remaining source.new) }
    ensures verdict { S.tells source.old → D.tells device.old
        → Judges plan.now (D.content device.old) (S.remaining source.old) root.now result }
{
    match pass(plan, &Comparing, store.lend(), source, device) {
        Ok(computed) => {
            if computed.as_bytes() == root.as_bytes() {
                Ok(())
            } else {
                Err(CompareFault::RootDiffers(computed))
            }
        }
        Err(PassFault::InData(SourceStop { block, why })) => match why {
            BlockFault::Short => Err(CompareFault::SourceShort(block)),
            BlockFault::Failed => Err(CompareFault::SourceFailed(block)),
        },
        Err(PassFault::AtBlock(Stop { level, block, why })) => match why {
            CompareStop::Unread => Err(CompareFault::DeviceFailed { level, block }),
            CompareStop::Differs(part) => Err(CompareFault::Differs { level, block, part }),
        },
    }
}
