//! Before the data of a tree's parts comes: how many parts there are, the memory that one is built in or all are joined in,
//! and the beginning of one.
ghost use Rattle.std.specs.Prelude.{◌≡◌, ◌≢◌, ◌≤◌, [], length, IfOk, Ok};
ghost use Rattle.verity_plan.specs.PlanCounts.{level_count_of};
ghost use Rattle.verity_builders.specs.Feeding.{feeding_length};
ghost use Rattle.verity_builders.specs.Parts.{HasPart, join_length};
ghost use Rattle.verity_c_api.specs.Answers.{value_or};
ghost use Rattle.verity_c_api.specs.Parameters.{fsverity_plan_of, plan_of};
ghost use Rattle.verity_c_api.specs.Parts.{IsFedPartTo, begun_part, join_memory_in, part_blocks_in, part_count_in};
ghost use Rattle.verity_c_api.specs.Parts.{part_memory_in, with_join_memory, with_part_memory};
ghost use Rattle.verity_c_api.specs.Statuses.{done, status_of};

use crate::parts::{plan_with_level, plan_with_part};
use crate::plans::{fsverity_plan_of, plan_of};
use verity_builders::{JoinBuilder, PartBuilder};
use verity_c_api::{DONE, Fault, FsverityParams, VerityParams, VerityPart};
use verity_plan::Plan;

/// How many parts a level has, and how many data blocks each but the last one, which has what is left, down to a single
/// one. The part of a level is what stands below one of the digests that the level's hash blocks are made of (Linux
/// kernel, dm-verity page, "Hash Tree"): level 0 has a part for each data block. The level above the top has one part,
/// the whole tree; its number is that of `verity_level_count`.
///
/// The status is 0, or that of the first fault of the parameters, or of `Level`. Then both numbers stay as they were.
#[unsafe(no_mangle)]
pub extern "C" fn verity_part_count(
    params: &VerityParams,
    level: usize,
    parts: &mut u64,
    blocks: &mut u64,
) -> i32
    ensures status { result ≡ status_of (part_count_in (plan_of params.now) level) }
    ensures parts { parts.new ≡ value_or parts.old (part_count_in (plan_of params.now) level) }
    ensures blocks { blocks.new ≡ value_or blocks.old (part_blocks_in (plan_of params.now) level) }
{
    set_part_count(plan_of(params), level, parts, blocks)
}

/// The same of a file's fs-verity tree.
#[unsafe(no_mangle)]
pub extern "C" fn fsverity_part_count(
    params: &FsverityParams,
    level: usize,
    parts: &mut u64,
    blocks: &mut u64,
) -> i32
    ensures status { result ≡ status_of (part_count_in (fsverity_plan_of params.now) level) }
    ensures parts { parts.new ≡ value_or parts.old (part_count_in (fsverity_plan_of params.now) level) }
    ensures blocks { blocks.new ≡ value_or blocks.old (part_blocks_in (fsverity_plan_of params.now) level) }
{
    set_part_count(fsverity_plan_of(params), level, parts, blocks)
}

fn set_part_count(plan: Result<Plan, Fault>, level: usize, parts: &mut u64, blocks: &mut u64) -> i32
    ensures status { result ≡ status_of (part_count_in plan level) }
    ensures parts { parts.new ≡ value_or parts.old (part_count_in plan level) }
    ensures blocks { blocks.new ≡ value_or blocks.old (part_blocks_in plan level) }
{
    let plan = match plan_with_level(plan, level) {
        Ok(plan) => plan,
        Err(fault) => return fault.status(),
    };
    *parts = plan.count_under(level);
    *blocks = PartBuilder::blocks(&plan, level);
    DONE
}

/// The length of the memory that a part of a level is built in, in bytes: a hash block for each level below, and a
/// window of up to eight data blocks.
///
/// The status is 0, or that of the first fault of the parameters, or of `Level`. Then the length stays as it was.
#[unsafe(no_mangle)]
pub extern "C" fn verity_part_memory(params: &VerityParams, level: usize, length: &mut usize) -> i32
    ensures status { result ≡ status_of (part_memory_in (plan_of params.now) level) }
    ensures length { length.new ≡ value_or length.old (part_memory_in (plan_of params.now) level) }
{
    set_part_memory(plan_of(params), level, length)
}

/// The same of a file's fs-verity tree.
#[unsafe(no_mangle)]
pub extern "C" fn fsverity_part_memory(
    params: &FsverityParams,
    level: usize,
    length: &mut usize,
) -> i32
    ensures status { result ≡ status_of (part_memory_in (fsverity_plan_of params.now) level) }
    ensures length { length.new ≡ value_or length.old (part_memory_in (fsverity_plan_of params.now) level) }
{
    set_part_memory(fsverity_plan_of(params), level, length)
}

fn set_part_memory(plan: Result<Plan, Fault>, level: usize, length: &mut usize) -> i32
    ensures status { result ≡ status_of (part_memory_in plan level) }
    ensures length { length.new ≡ value_or length.old (part_memory_in plan level) }
{
    let plan = match plan_with_level(plan, level) {
        Ok(plan) => plan,
        Err(fault) => return fault.status(),
    };
    *length = PartBuilder::memory_length(&plan, level);
    DONE
}

/// The length of the memory that the parts of a level are joined in, in bytes: a hash block for each level from this
/// one on, and a digest.
///
/// The status is 0, or that of the first fault of the parameters, or of `Level`. Then the length stays as it was.
#[unsafe(no_mangle)]
pub extern "C" fn verity_join_memory(params: &VerityParams, level: usize, length: &mut usize) -> i32
    ensures status { result ≡ status_of (join_memory_in (plan_of params.now) level) }
    ensures length { length.new ≡ value_or length.old (join_memory_in (plan_of params.now) level) }
{
    set_join_memory(plan_of(params), level, length)
}

/// The same of a file's fs-verity tree.
#[unsafe(no_mangle)]
pub extern "C" fn fsverity_join_memory(
    params: &FsverityParams,
    level: usize,
    length: &mut usize,
) -> i32
    ensures status { result ≡ status_of (join_memory_in (fsverity_plan_of params.now) level) }
    ensures length { length.new ≡ value_or length.old (join_memory_in (fsverity_plan_of params.now) level) }
{
    set_join_memory(fsverity_plan_of(params), level, length)
}

fn set_join_memory(plan: Result<Plan, Fault>, level: usize, length: &mut usize) -> i32
    ensures status { result ≡ status_of (join_memory_in plan level) }
    ensures length { length.new ≡ value_or length.old (join_memory_in plan level) }
{
    let plan = match plan_with_level(plan, level) {
        Ok(plan) => plan,
        Err(fault) => return fault.status(),
    };
    *length = JoinBuilder::memory_length(&plan, level);
    DONE
}

/// Begins a part of a level, by its number, counted from 0: nothing was fed yet. What stood in struct and memory
/// doesn't count. The memory is as long as `verity_part_memory` says, here and in each later call.
///
/// The status is 0, or that of the first fault of the parameters, or of `Level`, `Part`, `Length`. Then struct and
/// memory stay as they were.
#[unsafe(no_mangle)]
pub extern "C" fn verity_part_begin(
    params: &VerityParams,
    level: usize,
    number: u64,
    part: &mut VerityPart,
    memory: &mut [u8],
) -> i32
    ensures status { result ≡ status_of (with_part_memory (plan_of params.now) level number (length memory.old)) }
    ensures refused { result ≢ done → (part.new ≡ part.old) × (memory.new ≡ memory.old) }
    ensures begun { result ≡ done → part.new ≡ begun_part level number }
    ensures fed { result ≡ done → IsFedPartTo (plan_of params.now) part.new memory.new [] }
{
    begin_part(plan_of(params), level, number, part, memory)
}

/// The same of a file's fs-verity tree, whose size is known.
#[unsafe(no_mangle)]
pub extern "C" fn fsverity_part_begin(
    params: &FsverityParams,
    level: usize,
    number: u64,
    part: &mut VerityPart,
    memory: &mut [u8],
) -> i32
    ensures status { result
        ≡ status_of (with_part_memory (fsverity_plan_of params.now) level number (length memory.old)) }
    ensures refused { result ≢ done → (part.new ≡ part.old) × (memory.new ≡ memory.old) }
    ensures begun { result ≡ done → part.new ≡ begun_part level number }
    ensures fed { result ≡ done → IsFedPartTo (fsverity_plan_of params.now) part.new memory.new [] }
{
    begin_part(fsverity_plan_of(params), level, number, part, memory)
}

fn begin_part(
    plan: Result<Plan, Fault>,
    level: usize,
    number: u64,
    part: &mut VerityPart,
    memory: &mut [u8],
) -> i32
    ensures status { result ≡ status_of (with_part_memory plan level number (length memory.old)) }
    ensures refused { result ≢ done → (part.new ≡ part.old) × (memory.new ≡ memory.old) }
    ensures begun { result ≡ done → part.new ≡ begun_part level number }
    ensures fed { result ≡ done → IsFedPartTo plan part.new memory.new [] }
{
    let plan = match plan_with_part_memory(plan, level, number, memory.len()) {
        Ok(plan) => plan,
        Err(fault) => return fault.status(),
    };
    match PartBuilder::begin(&plan, level, number, memory) {
        Ok(builder) => {
            *part = VerityPart {
                level: builder.level,
                part: builder.part,
                fed: builder.fed,
                closed: builder.closed,
            };
            DONE
        }
        // The plan has the part, so this is never answered.
        Err(_) => Fault::Part.status(),
    }
}

/// The plan, if the level has this part, and the memory is as long as its builder wants; or the first fault: that of
/// the plan, `Level`, `Part`, `Length`.
pub(crate) fn plan_with_part_memory(
    plan: Result<Plan, Fault>,
    level: usize,
    part: u64,
    room: usize,
) -> Result<Plan, Fault>
    ensures value { result ≡ with_part_memory plan level part room }
    ensures planned { IfOk result (λ p. plan ≡ Ok p) }
    ensures part { IfOk result (λ p. HasPart p level part) }
    ensures memory { IfOk result (λ p. room ≡ feeding_length p.settings level) }
{
    match plan_with_part(plan, level, part) {
        Ok(plan) if room != PartBuilder::memory_length(&plan, level) => Err(Fault::Length),
        other => other,
    }
}

/// The plan, if it has this level or one level fewer, and the memory is as long as the builder of a join wants; or the
/// first fault: that of the plan, `Level`, `Length`.
pub(crate) fn plan_with_join_memory(
    plan: Result<Plan, Fault>,
    level: usize,
    room: usize,
) -> Result<Plan, Fault>
    ensures value { result ≡ with_join_memory plan level room }
    ensures planned { IfOk result (λ p. plan ≡ Ok p) }
    ensures level { IfOk result (λ p. level ≤ level_count_of p) }
    ensures memory { IfOk result (λ p. room ≡ join_length p level) }
{
    match plan_with_level(plan, level) {
        Ok(plan) if room != JoinBuilder::memory_length(&plan, level) => Err(Fault::Length),
        other => other,
    }
}
