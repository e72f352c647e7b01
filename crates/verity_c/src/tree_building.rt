//! Building a dm-verity tree as pieces of its data come.
ghost use Rattle.std.specs.Prelude.{◌≡◌, ◌≢◌, ◌<◌, ℕ, List, [], ◌++◌, length, take, IfOk};
ghost use Rattle.verity_c_api.specs.Answers.{value_or};
ghost use Rattle.verity_c_api.specs.Building.{HandsOut, IsFedTo, StandsLast, TakesPiece, fed_of, last_in};
ghost use Rattle.verity_c_api.specs.Building.{memory_length_in};
ghost use Rattle.verity_c_api.specs.Building.{memory_length_of, root_in, with_all_fed, with_memory, with_piece};
ghost use Rattle.verity_c_api.specs.Parameters.{plan_of};
ghost use Rattle.verity_c_api.specs.Statuses.{done, status_of};

use crate::files::set_digest;
use crate::plans::plan_of;
use verity_builders::{Fed, TreeBuilder};
use verity_c_api::{DONE, Fault, VerityBuild, VerityFed, VerityParams};
use verity_plan::Plan;

/// The length of the memory that a tree is built in, in bytes: a hash block for each level (Linux kernel, dm-verity
/// page, "Hash Tree"), and a window of up to eight data blocks.
///
/// The status is 0, or that of the first fault of the parameters. Then the length stays as it was.
#[unsafe(no_mangle)]
pub extern "C" fn verity_build_memory(params: &VerityParams, length: &mut usize) -> i32
    ensures status { result ≡ status_of (memory_length_in (plan_of params.now)) }
    ensures length { length.new ≡ value_or length.old (memory_length_in (plan_of params.now)) }
{
    match plan_of(params) {
        Ok(plan) => {
            *length = TreeBuilder::memory_length(&plan);
            DONE
        }
        Err(fault) => fault.status(),
    }
}

/// Begins to build: nothing was fed yet. What stood in struct and memory doesn't count. The memory is as long as
/// `verity_build_memory` says, here and in each call below.
///
/// The status is 0, or that of the first fault of the parameters, or of `Length`. Then struct and memory stay as they
/// were.
#[unsafe(no_mangle)]
pub extern "C" fn verity_build_begin(
    params: &VerityParams,
    build: &mut VerityBuild,
    memory: &mut [u8],
) -> i32
    ensures status { result ≡ status_of (with_memory (plan_of params.now) (length memory.old)) }
    ensures refused { result ≢ done → (build.new ≡ build.old) × (memory.new ≡ memory.old) }
    ensures fed { result ≡ done → IsFedTo params.now build.new memory.new [] }
{
    let plan = match plan_with(params, memory.len()) {
        Ok(plan) => plan,
        Err(fault) => return fault.status(),
    };
    let builder = TreeBuilder::begin(&plan, memory);
    *build = VerityBuild {
        fed: builder.fed,
        closed: builder.closed,
    };
    DONE
}

/// Feeds the next piece of the data, of any length: all of it, or its bytes up to those with which a hash block
/// closes, which is handed out with its place on the hash device (Linux kernel, dm-verity page, "On-disk format"). It
/// stands in the memory until bytes are taken or the next one is handed out. Then the rest of the piece, perhaps of no
/// bytes, is fed by further calls, until one hands out none. A hash block that closes with the last byte of a piece is
/// handed out by the next call with more bytes; with the last byte of the data, that call and the next ones hand out
/// all that are left, one a call. When all bytes were fed, and a call hands out none, each hash block of the tree was
/// handed out once.
///
/// The status is 0, or that of the first fault of the parameters, or of `Length` (the memory's), `Level` (more levels
/// have closed than the tree has), `TooLong`. Then structs and memory stay as they were. The answer is right where
/// struct and memory are as the call before left them, with the same parameters; others have an answer too.
#[unsafe(no_mangle)]
pub extern "C" fn verity_build_feed(
    params: &VerityParams,
    build: &mut VerityBuild,
    memory: &mut [u8],
    piece: &[u8],
    fed: &mut VerityFed,
) -> i32
    ensures status { result
        ≡ status_of (with_piece (with_memory (plan_of params.now) (length memory.old)) build.old (length piece.now)) }
    ensures refused { result ≢ done → (build.new ≡ build.old) × (memory.new ≡ memory.old) × (fed.new ≡ fed.old) }
    ensures takes { result ≡ done
        → IfOk (plan_of params.now) (λ p. TakesPiece p build.old build.new (length piece.now) fed.new) }
    ensures fed { (bytes : List ℕ) → IsFedTo params.now build.old memory.old bytes → result ≡ done
        → IsFedTo params.now build.new memory.new (bytes ++ take fed.new.taken piece.now) }
    ensures block { (bytes : List ℕ) → IsFedTo params.now build.old memory.old bytes → result ≡ done
        → IfOk (plan_of params.now) (λ p. HandsOut p build.old build.new (bytes ++ take fed.new.taken piece.now)
        memory.new fed.new) }
{
    let plan = match plan_with(params, memory.len()) {
        Ok(plan) => plan,
        Err(fault) => return fault.status(),
    };
    let mut builder = TreeBuilder {
        plan,
        fed: build.fed,
        closed: build.closed,
    };
    match builder.feed(memory, piece) {
        Ok(answer) => {
            *build = VerityBuild {
                fed: builder.fed,
                closed: builder.closed,
            };
            *fed = fed_of(&plan, &answer);
            DONE
        }
        Err(fault) => Fault::of_feed(fault).status(),
    }
}

/// The hash block that `verity_build_feed` handed out last, once more. It stands in the memory until bytes are taken
/// or the next one is handed out: so a build that was stored before it was written can go on. `taken` becomes 0, and
/// so do the other numbers if no hash block was handed out since the latest byte was fed.
///
/// The status is 0, or that of the first fault of the parameters, or of `Level` (more levels have closed than the tree
/// has), `TooLong`. Then the answer's struct stays as it was. The answer is right where struct and memory are as a call
/// left them, with the same parameters; others have an answer too.
#[unsafe(no_mangle)]
pub extern "C" fn verity_build_last_block(
    params: &VerityParams,
    build: &VerityBuild,
    fed: &mut VerityFed,
) -> i32
    ensures status { result ≡ status_of (last_in (with_piece (plan_of params.now) build.now 0) build.now) }
    ensures fed { fed.new ≡ value_or fed.old (last_in (with_piece (plan_of params.now) build.now 0) build.now) }
    ensures block { (memory bytes : List ℕ) → IsFedTo params.now build.now memory bytes → result ≡ done
        → IfOk (plan_of params.now) (λ p. StandsLast p build.now bytes memory fed.new) }
{
    let plan = match plan_of(params) {
        Ok(plan) => plan,
        Err(fault) => return fault.status(),
    };
    let builder = TreeBuilder {
        plan,
        fed: build.fed,
        closed: build.closed,
    };
    let hash_block = match builder.last_block() {
        Ok(hash_block) => hash_block,
        Err(fault) => return Fault::of_feed(fault).status(),
    };
    let answer = Fed {
        taken: 0,
        hash_block,
    };
    *fed = fed_of(&plan, &answer);
    DONE
}

/// The root hash, when all bytes were fed and all hash blocks handed out (Linux kernel, dm-verity page, "Hash Tree").
/// The buffer for it is as long as the hash function's digests. It can be asked for as often as one likes: struct and
/// memory stay those of the same bytes.
///
/// The status is 0, or that of the first fault of the parameters, or of `Length` (the memory's), `Root` (the buffer is
/// shorter or longer), `Level` (more levels have closed than the tree has), `TooLong`, `TooShort`, `Waiting` (a hash
/// block is still to be handed out). Then memory and buffer stay as they were. The answer is right where struct and
/// memory are as the call before left them, with the same parameters.
#[unsafe(no_mangle)]
pub extern "C" fn verity_build_end(
    params: &VerityParams,
    build: &VerityBuild,
    memory: &mut [u8],
    root: &mut [u8],
) -> i32
    ensures status { result
        ≡ status_of (with_all_fed (with_memory (plan_of params.now) (length memory.old)) build.now (length root.old)) }
    ensures refused { result ≢ done → (memory.new ≡ memory.old) × (root.new ≡ root.old) }
    ensures root { (fed : List ℕ) → IsFedTo params.now build.now memory.old fed → result ≡ done
        → root.new ≡ value_or root.old (root_in (plan_of params.now) fed) }
    ensures stays { (fed : List ℕ) → IsFedTo params.now build.now memory.old fed
        → IsFedTo params.now build.now memory.new fed }
{
    let plan = match plan_with(params, memory.len()) {
        Ok(plan) => plan,
        Err(fault) => return fault.status(),
    };
    if root.len() != plan.digest_len() {
        return Fault::Root.status();
    }
    let builder = TreeBuilder {
        plan,
        fed: build.fed,
        closed: build.closed,
    };
    match builder.end(memory) {
        Ok(digest) => {
            set_digest(&digest, root);
            DONE
        }
        Err(fault) => Fault::of_feed(fault).status(),
    }
}

/// The plan of the parameters, if the memory is as long as its builder wants; or the first fault: that of the
/// parameters, `Length`.
fn plan_with(params: &VerityParams, room: usize) -> Result<Plan, Fault>
    ensures value { result ≡ with_memory (plan_of params.now) room }
    ensures planned { IfOk result (λ plan. plan_of params.now ≡ Ok plan) }
    ensures memory { IfOk result (λ plan. room ≡ memory_length_of plan) }
{
    match plan_of(params) {
        Ok(plan) if room == TreeBuilder::memory_length(&plan) => Ok(plan),
        Ok(_) => Err(Fault::Length),
        Err(fault) => Err(fault),
    }
}

/// What the builder has answered, in numbers.
pub(crate) fn fed_of(plan: &Plan, answer: &Fed) -> VerityFed
    ensures value { result ≡ fed_of plan.now answer.now }
    ensures some { 0 < plan.now.settings.hash_block }
{
    // Called for the proof: its contract says that the plan can be carried out, so a hash block has a byte.
    let _planned = plan.blocks();
    match answer.hash_block {
        Some(block) => VerityFed {
            taken: answer.taken,
            block_length: plan.hash_block(),
            block_at: block.at,
            block_start: block.start,
            block_index: block.index,
            block_level: block.level,
        },
        None => VerityFed {
            taken: answer.taken,
            block_length: 0,
            block_at: 0,
            block_start: 0,
            block_index: 0,
            block_level: 0,
        },
    }
}
