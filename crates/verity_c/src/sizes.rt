//! How much room a tree takes.
ghost use Rattle.std.specs.Prelude.{◌≡◌};
ghost use Rattle.verity_c_api.specs.Answers.{hash_area_end_in, value_or};
ghost use Rattle.verity_c_api.specs.Parameters.{fsverity_plan_of, plan_of};
ghost use Rattle.verity_c_api.specs.Statuses.{status_of};

use crate::plans::{fsverity_plan_of, plan_of};
use verity_c_api::{DONE, Fault, FsverityParams, VerityParams};
use verity_plan::Plan;

/// The byte of the hash device at which the hash area ends, after the last hash block (cryptsetup's on-disk format page;
/// veritysetup(8), `--hash-offset`): a hash device has at least as many bytes, superblock and all before it counted. A
/// single data block has no hash block: then it is where the tree would begin.
///
/// The status is 0, or that of the first fault of the parameters. Then the byte stays as it was.
#[unsafe(no_mangle)]
pub extern "C" fn verity_hash_area_end(params: &VerityParams, end: &mut u64) -> i32
    ensures status { result ≡ status_of (hash_area_end_in (plan_of params.now)) }
    ensures end { end.new ≡ value_or end.old (hash_area_end_in (plan_of params.now)) }
{
    set_end(plan_of(params), end)
}

/// The size of a file's fs-verity tree, in bytes: of all its blocks (Linux kernel, fs-verity page,
/// "FS_IOC_READ_VERITY_METADATA"). 0 for a single data block.
///
/// The status is 0, or that of the first fault of the parameters. Then the size stays as it was.
#[unsafe(no_mangle)]
pub extern "C" fn fsverity_tree_size(params: &FsverityParams, size: &mut u64) -> i32
    ensures status { result ≡ status_of (hash_area_end_in (fsverity_plan_of params.now)) }
    ensures size { size.new ≡ value_or size.old (hash_area_end_in (fsverity_plan_of params.now)) }
{
    set_end(fsverity_plan_of(params), size)
}

fn set_end(plan: Result<Plan, Fault>, end: &mut u64) -> i32
    ensures status { result ≡ status_of (hash_area_end_in plan) }
    ensures end { end.new ≡ value_or end.old (hash_area_end_in plan) }
{
    match plan {
        Ok(plan) => {
            // Called for the proof: its contract says that the plan can be carried out, so the end is a number.
            let _planned = plan.blocks();
            *end = plan.end() * plan.hash_block() as u64;
            DONE
        }
        Err(fault) => fault.status(),
    }
}
