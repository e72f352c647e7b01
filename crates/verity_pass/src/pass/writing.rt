//! Hash blocks that have closed are written.
use crate::pass::on_closed::OnClosed;
use verity_io::{Device, Failed};
use verity_plan::Plan;

/// Writes each hash block that has closed at its place.
pub(crate) struct Writing;

impl OnClosed for Writing {
    type Why = Failed;

    ghost use Rattle.verity_pass.specs.Steps.OnClosed.{KeepsAny, StopsWriting, WritesAll, is_unwritten};

    ghost is_failure = { is_unwritten };

    ghost keeps = { KeepsAny };

    ghost leaves = { WritesAll };

    ghost stops = { StopsWriting };

    #[tactic(auto, using(crate::proofs::Passes::OnePass::one_more_written))]
    fn take<D: Device>(
        &self,
        plan: &Plan,
        level: usize,
        index: u64,
        bytes: &[u8],
        stored: &mut [u8],
        device: &mut D,
    ) -> Result<(), Failed> {
        device.write_at(plan.start(level, index), bytes)
    }
}
