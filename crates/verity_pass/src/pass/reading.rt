//! A window of data blocks is read from the source.
ghost use Rattle.std.specs.Prelude.{◌≡◌, ℕ, ◌-◌, ◌*◌, ◌/◌, ◌<◌, List, length, min, IfOk};
ghost use Rattle.verity_io.specs.Counting.{Counts, TheSource, failed_at};
ghost use Rattle.verity_io.specs.Reading.{HasRead};
ghost use Rattle.verity_plan.specs.Plans.{IsPlan};
ghost use Rattle.verity_pass.specs.Steps.DataBlocks.{ReadsWindow};
ghost use Rattle.verity_pass.specs.Steps.PassFaults.{source_side};

use crate::pass::pass_fault::{BlockFault, SourceStop};
use verity_io::{Source, read_block};
use verity_plan::Plan;

/// Reads the next bytes into the window, when `fed` were read before, each data block by a read of its own: how many, or
/// where the source stops.
pub(crate) fn read_window<S: Source>(
    plan: &Plan,
    window: &mut [u8],
    fed: u64,
    source: &mut S,
) -> Result<usize, SourceStop>
    requires planned { IsPlan plan.now }
    requires below { fed < plan.now.wanted }
    requires whole { fed / plan.now.settings.data_block * plan.now.settings.data_block ≡ fed }
    ensures size { IfOk result (λ count. count ≡ min (length window.old) (plan.now.wanted - fed)) }
    ensures told { S.tells source.old → S.tells source.new }
    ensures count { Counts (failed_at source_side TheSource result) (S.failures source.old) (S.failures source.new) }
    ensures read { S.tells source.old → (bytes : List ℕ) → HasRead fed bytes (S.remaining source.old)
        → ReadsWindow plan.now fed bytes result window.new (S.remaining source.new) }
{
    let size = plan.data_block();
    let left = plan.wanted() - fed;
    let count = left.min(window.len() as u64) as usize;
    let mut at = 0;
    'rows: while at < count {
        let block = (fed + at as u64) / size as u64;
        let end = at + size.min(count - at);
        match read_block(source, &mut window[at..end]) {
            Ok(read) => {
                if read < end - at {
                    let why = BlockFault::Short;
                    return Err(SourceStop { block, why });
                }
            }
            Err(_) => {
                let why = BlockFault::Failed;
                return Err(SourceStop { block, why });
            }
        }
        at = end;
    }
    Ok(count)
}
