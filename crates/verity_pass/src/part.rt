//! Where a stored hash block differs from the tree's.
ghost use Rattle.std.specs.Prelude.{◌≡◌, ◌*◌, length};
ghost use Rattle.verity_plan.specs.Plans.{HasBlock};
ghost use Rattle.verity_plan.specs.Settings.{fan};

/// Where a stored hash block differs.
#[derive(Clone, Copy, Debug, PartialEq, Eq)]
pub enum Part {
    /// The device ends before the block's end.
    Missing,
    /// The digest of this block one level below, or of this data block, is the first that differs; counted from 0.
    Child(u64),
    /// Only bytes outside the used digests differ.
    Spare,
}

ghost use Rattle.verity_pass.specs.Verdicts.{first_slot, part_at};

use verity_plan::Plan;

/// Where a whole stored block differs from the computed one.
pub(crate) fn part_between(
    plan: &Plan,
    level: usize,
    index: u64,
    stored: &[u8],
    computed: &[u8],
) -> Part
    requires here { HasBlock plan.now level index }
    requires stored { length stored.now ≡ plan.now.settings.hash_block }
    requires computed { length computed.now ≡ plan.now.settings.hash_block }
    ensures { result ≡ part_at (index * fan plan.now.settings)
        (first_slot plan.now level index stored.now computed.now) }
{
    let fan = plan.fan();
    let len = plan.digest_len();
    let width = plan.settings().slot_width();
    let below = plan.count_under(level);
    let first = index * fan as u64;
    let used = (below - first).min(fan as u64) as usize;
    for slot in 0..used {
        let from = slot * width;
        if stored[from..from + len] != computed[from..from + len] {
            return Part::Child(first + slot as u64);
        }
    }
    Part::Spare
}
