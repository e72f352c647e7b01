//! What every plan is. A caller knows it once it has called a function whose contract says so.
ghost use Rattle.verity_plan.specs.Plans.{IsPlan};

use verity_plan::Plan;

/// Says for the proof that a plan can be carried out.
pub fn planned(plan: &Plan)
    ensures { IsPlan plan.now }
{
    let _blocks = plan.blocks();
}
