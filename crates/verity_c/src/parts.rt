//! Building a part of a tree as pieces of its data come, apart from the other parts, by as many threads, processes or
//! machines as a caller has.
ghost use Rattle.std.specs.Prelude.{◌≡◌, ◌≢◌, ◌≤◌, ℕ, List, ◌++◌, length, take, IfOk, Ok};
ghost use Rattle.verity_plan.specs.PlanCounts.{level_count_of};
ghost use Rattle.verity_builders.specs.Parts.{HasPart};
ghost use Rattle.verity_c_api.specs.Answers.{value_or};
ghost use Rattle.verity_c_api.specs.Parameters.{fsverity_plan_of, plan_of};
ghost use Rattle.verity_c_api.specs.Parts.{HandsOutOfPart, IsDigestOfFed, IsFedPartTo, StandsLastOfPart};
ghost use Rattle.verity_c_api.specs.Parts.{TakesPartPiece, last_of_part_in, part_builder_of, with_part};
ghost use Rattle.verity_c_api.specs.Parts.{with_part_fed, with_part_memory, with_part_piece, with_parts};
ghost use Rattle.verity_c_api.specs.Statuses.{done, status_of};

use crate::beginning_parts::plan_with_part_memory;
use crate::files::set_digest;
use crate::plans::{fsverity_plan_of, plan_of};
use crate::tree_building::fed_of;
use verity_builders::{Fed, PartBuilder};
use verity_c_api::{DONE, Fault, FsverityParams, VerityFed, VerityParams, VerityPart};
use verity_plan::Plan;

/// Feeds the next piece of the part's data, of any length: all of it, or its bytes up to those with which a hash
/// block closes, which is handed out with its number and its place in the whole tree (Linux kernel, dm-verity page,
/// "On-disk format"). It stands in the memory until bytes are taken or the next one is handed out. Then the rest of
/// the piece, perhaps of no bytes, is fed by further calls, until one hands out none. A hash block that closes with
/// the last byte of a piece is handed out by the next call with more bytes; with the part's last byte, that call and
/// the next ones hand out all that are left, one a call. When all bytes were fed, and a call hands out none, each
/// hash block of the part was handed out once.
///
/// The status is 0, or that of the first fault of the parameters, or of `Level`, `Part`, `Length` (the memory's),
/// `Level` (more levels are counted than can have closed), `TooLong`. Then structs and memory stay as they were. The
/// answer is right where struct and memory are as the call before left them, with the same parameters; others have an
/// answer too.
#[unsafe(no_mangle)]
pub extern "C" fn verity_part_feed(
    params: &VerityParams,
    part: &mut VerityPart,
    memory: &mut [u8],
    piece: &[u8],
    fed: &mut VerityFed,
) -> i32
    ensures status { result ≡ status_of (with_part_piece
        (with_part_memory (plan_of params.now) part.old.level part.old.part (length memory.old)) part.old
        (length piece.now)) }
    ensures refused { result ≢ done → (part.new ≡ part.old) × (memory.new ≡ memory.old) × (fed.new ≡ fed.old) }
    ensures takes { result ≡ done
        → IfOk (plan_of params.now) (λ p. TakesPartPiece p part.old part.new (length piece.now) fed.new) }
    ensures fed { (bytes : List ℕ) → IsFedPartTo (plan_of params.now) part.old memory.old bytes → result ≡ done
        → IsFedPartTo (plan_of params.now) part.new memory.new (bytes ++ take fed.new.taken piece.now) }
    ensures block { (bytes : List ℕ) → IsFedPartTo (plan_of params.now) part.old memory.old bytes → result ≡ done
        → IfOk (plan_of params.now) (λ p. HandsOutOfPart p part.old part.new (bytes ++ take fed.new.taken piece.now)
        memory.new fed.new) }
{
    feed_part(plan_of(params), part, memory, piece, fed)
}

/// The same of a file's fs-verity tree. The file's last data block counts with the zeros that fill it (Linux kernel,
/// fs-verity page, "Merkle tree").
#[unsafe(no_mangle)]
pub extern "C" fn fsverity_part_feed(
    params: &FsverityParams,
    part: &mut VerityPart,
    memory: &mut [u8],
    piece: &[u8],
    fed: &mut VerityFed,
) -> i32
    ensures status { result ≡ status_of (with_part_piece
        (with_part_memory (fsverity_plan_of params.now) part.old.level part.old.part (length memory.old)) part.old
        (length piece.now)) }
    ensures refused { result ≢ done → (part.new ≡ part.old) × (memory.new ≡ memory.old) × (fed.new ≡ fed.old) }
    ensures takes { result ≡ done
        → IfOk (fsverity_plan_of params.now) (λ p. TakesPartPiece p part.old part.new (length piece.now) fed.new) }
    ensures fed { (bytes : List ℕ) → IsFedPartTo (fsverity_plan_of params.now) part.old memory.old bytes
        → result ≡ done
        → IsFedPartTo (fsverity_plan_of params.now) part.new memory.new (bytes ++ take fed.new.taken piece.now) }
    ensures block { (bytes : List ℕ) → IsFedPartTo (fsverity_plan_of params.now) part.old memory.old bytes
        → result ≡ done
        → IfOk (fsverity_plan_of params.now) (λ p. HandsOutOfPart p part.old part.new
        (bytes ++ take fed.new.taken piece.now) memory.new fed.new) }
{
    feed_part(fsverity_plan_of(params), part, memory, piece, fed)
}

fn feed_part(
    plan: Result<Plan, Fault>,
    part: &mut VerityPart,
    memory: &mut [u8],
    piece: &[u8],
    fed: &mut VerityFed,
) -> i32
    ensures status { result ≡ status_of (with_part_piece
        (with_part_memory plan part.old.level part.old.part (length memory.old)) part.old (length piece.now)) }
    ensures refused { result ≢ done → (part.new ≡ part.old) × (memory.new ≡ memory.old) × (fed.new ≡ fed.old) }
    ensures takes { result ≡ done
        → IfOk plan (λ p. TakesPartPiece p part.old part.new (length piece.now) fed.new) }
    ensures fed { (bytes : List ℕ) → IsFedPartTo plan part.old memory.old bytes → result ≡ done
        → IsFedPartTo plan part.new memory.new (bytes ++ take fed.new.taken piece.now) }
    ensures block { (bytes : List ℕ) → IsFedPartTo plan part.old memory.old bytes → result ≡ done
        → IfOk plan
        (λ p. HandsOutOfPart p part.old part.new (bytes ++ take fed.new.taken piece.now) memory.new fed.new) }
{
    let plan = match plan_with_part_memory(plan, part.level, part.part, memory.len()) {
        Ok(plan) => plan,
        Err(fault) => return fault.status(),
    };
    let mut builder = builder_of(&plan, part);
    match builder.feed(memory, piece) {
        Ok(answer) => {
            *part = VerityPart {
                level: builder.level,
                part: builder.part,
                fed: builder.fed,
                closed: builder.closed,
            };
            *fed = fed_of(&plan, &answer);
            DONE
        }
        Err(fault) => Fault::of_feed(fault).status(),
    }
}

/// The hash block that `verity_part_feed` handed out last, once more. It stands in the memory until bytes are taken or
/// the next one is handed out: so a part that was stored before it was written can go on. `taken` becomes 0, and so do
/// the other numbers if no hash block was handed out since the latest byte was fed.
///
/// The status is 0, or that of the first fault of the parameters, or of `Level`, `Part`, `Level` (more levels are
/// counted than can have closed), `TooLong`. Then the answer's struct stays as it was. The answer is right where struct
/// and memory are as a call left them, with the same parameters; others have an answer too.
#[unsafe(no_mangle)]
pub extern "C" fn verity_part_last_block(
    params: &VerityParams,
    part: &VerityPart,
    fed: &mut VerityFed,
) -> i32
    ensures status { result ≡ status_of (last_of_part_in
        (with_part_piece (with_part (plan_of params.now) part.now.level part.now.part) part.now 0) part.now) }
    ensures fed { fed.new ≡ value_or fed.old (last_of_part_in
        (with_part_piece (with_part (plan_of params.now) part.now.level part.now.part) part.now 0) part.now) }
    ensures block { (memory bytes : List ℕ) → IsFedPartTo (plan_of params.now) part.now memory bytes → result ≡ done
        → IfOk (plan_of params.now) (λ p. StandsLastOfPart p part.now bytes memory fed.new) }
{
    set_last_of_part(plan_of(params), part, fed)
}

/// The same of a file's fs-verity tree.
#[unsafe(no_mangle)]
pub extern "C" fn fsverity_part_last_block(
    params: &FsverityParams,
    part: &VerityPart,
    fed: &mut VerityFed,
) -> i32
    ensures status { result ≡ status_of (last_of_part_in
        (with_part_piece (with_part (fsverity_plan_of params.now) part.now.level part.now.part) part.now 0) part.now) }
    ensures fed { fed.new ≡ value_or fed.old (last_of_part_in
        (with_part_piece (with_part (fsverity_plan_of params.now) part.now.level part.now.part) part.now 0) part.now) }
    ensures block { (memory bytes : List ℕ) → IsFedPartTo (fsverity_plan_of params.now) part.now memory bytes
        → result ≡ done → IfOk (fsverity_plan_of params.now) (λ p. StandsLastOfPart p part.now bytes memory fed.new) }
{
    set_last_of_part(fsverity_plan_of(params), part, fed)
}

fn set_last_of_part(plan: Result<Plan, Fault>, part: &VerityPart, fed: &mut VerityFed) -> i32
    ensures status { result ≡ status_of (last_of_part_in
        (with_part_piece (with_part plan part.now.level part.now.part) part.now 0) part.now) }
    ensures fed { fed.new ≡ value_or fed.old (last_of_part_in
        (with_part_piece (with_part plan part.now.level part.now.part) part.now 0) part.now) }
    ensures block { (memory bytes : List ℕ) → IsFedPartTo plan part.now memory bytes → result ≡ done
        → IfOk plan (λ p. StandsLastOfPart p part.now bytes memory fed.new) }
{
    let plan = match plan_with_part(plan, part.level, part.part) {
        Ok(plan) => plan,
        Err(fault) => return fault.status(),
    };
    let hash_block = match builder_of(&plan, part).last_block() {
        Ok(hash_block) => hash_block,
        Err(fault) => return Fault::of_feed(fault).status(),
    };
    let answer = Fed {
        taken: 0,
        hash_block,
    };
    *fed = fed_of(&plan, &answer);
    DONE
}

/// The part's digest, when all its bytes were fed and all its hash blocks handed out: the one that stands for it in
/// its level (Linux kernel, dm-verity page, "Hash Tree"). The buffer for it is as long as the hash function's
/// digests. It can be asked for as often as one likes: struct and memory stay those of the same bytes.
///
/// The status is 0, or that of the first fault of the parameters, or of `Level`, `Part`, `Length` (the memory's),
/// `Length` (the buffer's), `Level` (more levels are counted than can have closed), `TooLong`, `TooShort`, `Waiting` (a
/// hash block is still to be handed out). Then memory and buffer stay as they were. The answer is right where struct
/// and memory are as the call before left them, with the same parameters.
#[unsafe(no_mangle)]
pub extern "C" fn verity_part_end(
    params: &VerityParams,
    part: &VerityPart,
    memory: &mut [u8],
    digest: &mut [u8],
) -> i32
    ensures status { result ≡ status_of (with_part_fed
        (with_part_memory (plan_of params.now) part.now.level part.now.part (length memory.old)) part.now
        (length digest.old)) }
    ensures refused { result ≢ done → (memory.new ≡ memory.old) × (digest.new ≡ digest.old) }
    ensures digest { (bytes : List ℕ) → IsFedPartTo (plan_of params.now) part.now memory.old bytes → result ≡ done
        → IsDigestOfFed (plan_of params.now) part.now bytes digest.new }
    ensures stays { (bytes : List ℕ) → IsFedPartTo (plan_of params.now) part.now memory.old bytes
        → IsFedPartTo (plan_of params.now) part.now memory.new bytes }
{
    set_part_digest(plan_of(params), part, memory, digest)
}

/// The same of a file's fs-verity tree.
#[unsafe(no_mangle)]
pub extern "C" fn fsverity_part_end(
    params: &FsverityParams,
    part: &VerityPart,
    memory: &mut [u8],
    digest: &mut [u8],
) -> i32
    ensures status { result ≡ status_of (with_part_fed
        (with_part_memory (fsverity_plan_of params.now) part.now.level part.now.part (length memory.old)) part.now
        (length digest.old)) }
    ensures refused { result ≢ done → (memory.new ≡ memory.old) × (digest.new ≡ digest.old) }
    ensures digest { (bytes : List ℕ) → IsFedPartTo (fsverity_plan_of params.now) part.now memory.old bytes
        → result ≡ done → IsDigestOfFed (fsverity_plan_of params.now) part.now bytes digest.new }
    ensures stays { (bytes : List ℕ) → IsFedPartTo (fsverity_plan_of params.now) part.now memory.old bytes
        → IsFedPartTo (fsverity_plan_of params.now) part.now memory.new bytes }
{
    set_part_digest(fsverity_plan_of(params), part, memory, digest)
}

fn set_part_digest(
    plan: Result<Plan, Fault>,
    part: &VerityPart,
    memory: &mut [u8],
    digest: &mut [u8],
) -> i32
    ensures status { result ≡ status_of (with_part_fed
        (with_part_memory plan part.now.level part.now.part (length memory.old)) part.now (length digest.old)) }
    ensures refused { result ≢ done → (memory.new ≡ memory.old) × (digest.new ≡ digest.old) }
    ensures digest { (bytes : List ℕ) → IsFedPartTo plan part.now memory.old bytes → result ≡ done
        → IsDigestOfFed plan part.now bytes digest.new }
    ensures stays { (bytes : List ℕ) → IsFedPartTo plan part.now memory.old bytes
        → IsFedPartTo plan part.now memory.new bytes }
{
    let plan = match plan_with_part_memory(plan, part.level, part.part, memory.len()) {
        Ok(plan) => plan,
        Err(fault) => return fault.status(),
    };
    if digest.len() != plan.digest_len() {
        return Fault::Length.status();
    }
    match builder_of(&plan, part).end(memory) {
        Ok(answer) => {
            set_digest(&answer, digest);
            DONE
        }
        Err(fault) => Fault::of_feed(fault).status(),
    }
}

/// The plan, if it has this level or one level fewer; or the first fault: that of the plan, `Level`.
pub(crate) fn plan_with_level(plan: Result<Plan, Fault>, level: usize) -> Result<Plan, Fault>
    ensures value { result ≡ with_parts plan level }
    ensures planned { IfOk result (λ p. plan ≡ Ok p) }
    ensures level { IfOk result (λ p. level ≤ level_count_of p) }
{
    match plan {
        Ok(plan) if level > plan.levels() => Err(Fault::Level),
        other => other,
    }
}

/// The plan, if the level has this part; or the first fault: that of the plan, `Level`, `Part`.
pub(crate) fn plan_with_part(
    plan: Result<Plan, Fault>,
    level: usize,
    part: u64,
) -> Result<Plan, Fault>
    ensures value { result ≡ with_part plan level part }
    ensures planned { IfOk result (λ p. plan ≡ Ok p) }
    ensures part { IfOk result (λ p. HasPart p level part) }
{
    match plan_with_level(plan, level) {
        Ok(plan) if part >= plan.count_under(level) => Err(Fault::Part),
        other => other,
    }
}

/// The builder that a struct says.
fn builder_of(plan: &Plan, part: &VerityPart) -> PartBuilder
    ensures { result ≡ part_builder_of plan.now part.now }
{
    PartBuilder {
        plan: *plan,
        level: part.level,
        part: part.part,
        fed: part.fed,
        closed: part.closed,
    }
}
