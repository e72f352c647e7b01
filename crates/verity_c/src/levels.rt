//! How many levels a tree has, where each begins, and where the hash blocks above a data block stand.
ghost use Rattle.std.specs.Prelude.{◌≡◌};
ghost use Rattle.verity_c_api.specs.Answers.{level_blocks_in, level_count_in, level_start_in, hash_block_start_in};
ghost use Rattle.verity_c_api.specs.Answers.{value_or};
ghost use Rattle.verity_c_api.specs.Parameters.{fsverity_plan_of, plan_of};
ghost use Rattle.verity_c_api.specs.Statuses.{status_of};

use crate::plans::{fsverity_plan_of, plan_of};
use verity_c_api::{DONE, Fault, FsverityParams, VerityParams};
use verity_plan::Plan;

/// How many levels of hash blocks the tree has, 0 for a single data block (Linux kernel, dm-verity page, "Hash Tree").
///
/// The status is 0, or that of the first fault of the parameters. Then the number stays as it was.
#[unsafe(no_mangle)]
pub extern "C" fn verity_level_count(params: &VerityParams, levels: &mut usize) -> i32
    ensures status { result ≡ status_of (level_count_in (plan_of params.now)) }
    ensures levels { levels.new ≡ value_or levels.old (level_count_in (plan_of params.now)) }
{
    set_level_count(plan_of(params), levels)
}

/// The same of a file's fs-verity tree.
#[unsafe(no_mangle)]
pub extern "C" fn fsverity_level_count(params: &FsverityParams, levels: &mut usize) -> i32
    ensures status { result ≡ status_of (level_count_in (fsverity_plan_of params.now)) }
    ensures levels { levels.new ≡ value_or levels.old (level_count_in (fsverity_plan_of params.now)) }
{
    set_level_count(fsverity_plan_of(params), levels)
}

fn set_level_count(plan: Result<Plan, Fault>, levels: &mut usize) -> i32
    ensures status { result ≡ status_of (level_count_in plan) }
    ensures levels { levels.new ≡ value_or levels.old (level_count_in plan) }
{
    match plan {
        Ok(plan) => {
            *levels = plan.levels();
            DONE
        }
        Err(fault) => fault.status(),
    }
}

/// Where a level begins, in bytes of the hash device, and how many hash blocks it has. Level 0 is next to the data; the
/// top level stands first (Linux kernel, dm-verity page, "On-disk format").
///
/// The status is 0, or that of the first fault of the parameters, or of `Level`. Then both numbers stay as they were.
#[unsafe(no_mangle)]
pub extern "C" fn verity_level_start(
    params: &VerityParams,
    level: usize,
    start: &mut u64,
    blocks: &mut u64,
) -> i32
    ensures status { result ≡ status_of (level_start_in (plan_of params.now) level) }
    ensures start { start.new ≡ value_or start.old (level_start_in (plan_of params.now) level) }
    ensures blocks { blocks.new ≡ value_or blocks.old (level_blocks_in (plan_of params.now) level) }
{
    set_level_start(plan_of(params), level, start, blocks)
}

/// The same of a file's fs-verity tree, in bytes from the beginning of the tree.
#[unsafe(no_mangle)]
pub extern "C" fn fsverity_level_start(
    params: &FsverityParams,
    level: usize,
    start: &mut u64,
    blocks: &mut u64,
) -> i32
    ensures status { result ≡ status_of (level_start_in (fsverity_plan_of params.now) level) }
    ensures start { start.new ≡ value_or start.old (level_start_in (fsverity_plan_of params.now) level) }
    ensures blocks { blocks.new ≡ value_or blocks.old (level_blocks_in (fsverity_plan_of params.now) level) }
{
    set_level_start(fsverity_plan_of(params), level, start, blocks)
}

fn set_level_start(
    plan: Result<Plan, Fault>,
    level: usize,
    start: &mut u64,
    blocks: &mut u64,
) -> i32
    ensures status { result ≡ status_of (level_start_in plan level) }
    ensures start { start.new ≡ value_or start.old (level_start_in plan level) }
    ensures blocks { blocks.new ≡ value_or blocks.old (level_blocks_in plan level) }
{
    let plan = match plan {
        Ok(plan) => plan,
        Err(fault) => return fault.status(),
    };
    if level >= plan.levels() {
        return Fault::Level.status();
    }
    // Called for the proof: its contract says that the plan can be carried out, so each level has a block.
    let _planned = plan.blocks();
    *blocks = plan.level_size(level);
    *start = plan.start(level, 0);
    DONE
}

/// The byte of the hash device at which the hash block of a level stands that is above data block `index`, counted from
/// 0. Level 0 is next to the data.
///
/// The status is 0, or that of the first fault of the parameters, or of `Index`, `Level`. Then the byte stays as it was.
#[unsafe(no_mangle)]
pub extern "C" fn verity_hash_block_start(
    params: &VerityParams,
    index: u64,
    level: usize,
    start: &mut u64,
) -> i32
    ensures status { result ≡ status_of (hash_block_start_in (plan_of params.now) index level) }
    ensures start { start.new ≡ value_or start.old (hash_block_start_in (plan_of params.now) index level) }
{
    set_hash_block_start(plan_of(params), index, level, start)
}

/// The same of a file's fs-verity tree, in bytes from the beginning of the tree.
#[unsafe(no_mangle)]
pub extern "C" fn fsverity_hash_block_start(
    params: &FsverityParams,
    index: u64,
    level: usize,
    start: &mut u64,
) -> i32
    ensures status { result ≡ status_of (hash_block_start_in (fsverity_plan_of params.now) index level) }
    ensures start { start.new ≡ value_or start.old (hash_block_start_in (fsverity_plan_of params.now) index level) }
{
    set_hash_block_start(fsverity_plan_of(params), index, level, start)
}

fn set_hash_block_start(plan: Result<Plan, Fault>, index: u64, level: usize, start: &mut u64) -> i32
    ensures status { result ≡ status_of (hash_block_start_in plan index level) }
    ensures start { start.new ≡ value_or start.old (hash_block_start_in plan index level) }
{
    let plan = match plan {
        Ok(plan) => plan,
        Err(fault) => return fault.status(),
    };
    if index >= plan.blocks() {
        return Fault::Index.status();
    }
    if level >= plan.levels() {
        return Fault::Level.status();
    }
    *start = plan.start_above(index, level);
    DONE
}
