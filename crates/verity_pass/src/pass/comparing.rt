//! Hash blocks that have closed are compared with the stored ones.
use crate::part::{Part, part_between};
use crate::pass::on_closed::OnClosed;
use verity_io::Device;
use verity_plan::Plan;

/// Why a comparison stops at a hash block.
#[derive(Clone, Copy)]
pub(crate) enum CompareStop {
    /// It could not be read.
    Unread,
    /// It is not the tree's.
    Differs(Part),
}

/// Compares each hash block that has closed with what stands at its place.
pub(crate) struct Comparing;

impl OnClosed for Comparing {
    type Why = CompareStop;

    ghost use Rattle.verity_pass.specs.Steps.OnClosed.{KeepsSame, HoldsAll, StopsComparing, is_unread};

    ghost is_failure = { is_unread };

    ghost keeps = { KeepsSame };

    ghost leaves = { HoldsAll };

    ghost stops = { StopsComparing };

    #[tactic(auto, using(crate::proofs::Devices::StoredBlocks::block_compared))]
    fn take<D: Device>(
        &self,
        plan: &Plan,
        level: usize,
        index: u64,
        bytes: &[u8],
        stored: &mut [u8],
        device: &mut D,
    ) -> Result<(), CompareStop> {
        match device.read_at(plan.start(level, index), stored) {
            Ok(count) if count < stored.len() => Err(CompareStop::Differs(Part::Missing)),
            Ok(_) if &*stored == bytes => Ok(()),
            Ok(_) => Err(CompareStop::Differs(part_between(plan, level, index, stored, bytes))),
            Err(_) => Err(CompareStop::Unread),
        }
    }
}
