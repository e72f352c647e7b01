//! Joining the parts of a tree by their digests: the hash blocks above them, and the root hash.
ghost use Rattle.std.specs.Prelude.{◌≡◌, ◌≢◌, ℕ, List, length, take, IfOk, Ok};
ghost use Rattle.verity_plan.specs.Settings.{digest_len};
ghost use Rattle.verity_blocks.specs.Levels.{data_blocks, root};
ghost use Rattle.verity_c_api.specs.Answers.{value_or};
ghost use Rattle.verity_c_api.specs.Building.{root_in};
ghost use Rattle.verity_c_api.specs.Parameters.{fsverity_plan_of, plan_of};
ghost use Rattle.verity_c_api.specs.Parts.{AreNextDigests, HandsOutOfJoin, IsJoinedTo, StandsLastOfJoin, TakesDigests};
ghost use Rattle.verity_c_api.specs.Parts.{begun_join, file_digest_of, join_builder_of, last_of_join_in};
ghost use Rattle.verity_c_api.specs.Parts.{with_digests, with_join_memory, with_joined, with_joined_file, with_parts};
ghost use Rattle.verity_c_api.specs.Statuses.{done, status_of};

use crate::beginning_parts::plan_with_join_memory;
use crate::files::{set_digest, set_root_and_digest};
use crate::parts::plan_with_level;
use crate::plans::{fsverity_plan_of, plan_of};
use crate::tree_building::fed_of;
use verity_builders::{Fed, JoinBuilder};
use verity_c_api::{DONE, Fault, FsverityParams, VerityFed, VerityJoin, VerityParams};
use verity_hash::Digest;
use verity_plan::Plan;

/// Begins to join the parts of a level: no digest was taken yet. What stood in struct and memory doesn't count. The
/// memory is as long as `verity_join_memory` says, here and in each call below.
///
/// The status is 0, or that of the first fault of the parameters, or of `Level`, `Length`. Then struct and memory stay
/// as they were.
#[unsafe(no_mangle)]
pub extern "C" fn verity_join_begin(
    params: &VerityParams,
    level: usize,
    join: &mut VerityJoin,
    memory: &mut [u8],
) -> i32
    ensures status { result ≡ status_of (with_join_memory (plan_of params.now) level (length memory.old)) }
    ensures refused { result ≢ done → (join.new ≡ join.old) × (memory.new ≡ memory.old) }
    ensures begun { result ≡ done → join.new ≡ begun_join level }
    ensures joined { result ≡ done
        → (bytes : List ℕ) → IsJoinedTo (plan_of params.now) join.new memory.new bytes }
{
    begin_join(plan_of(params), level, join, memory)
}

/// The same of a file's fs-verity tree, whose size is known.
#[unsafe(no_mangle)]
pub extern "C" fn fsverity_join_begin(
    params: &FsverityParams,
    level: usize,
    join: &mut VerityJoin,
    memory: &mut [u8],
) -> i32
    ensures status { result ≡ status_of (with_join_memory (fsverity_plan_of params.now) level (length memory.old)) }
    ensures refused { result ≢ done → (join.new ≡ join.old) × (memory.new ≡ memory.old) }
    ensures begun { result ≡ done → join.new ≡ begun_join level }
    ensures joined { result ≡ done
        → (bytes : List ℕ) → IsJoinedTo (fsverity_plan_of params.now) join.new memory.new bytes }
{
    begin_join(fsverity_plan_of(params), level, join, memory)
}

fn begin_join(
    plan: Result<Plan, Fault>,
    level: usize,
    join: &mut VerityJoin,
    memory: &mut [u8],
) -> i32
    ensures status { result ≡ status_of (with_join_memory plan level (length memory.old)) }
    ensures refused { result ≢ done → (join.new ≡ join.old) × (memory.new ≡ memory.old) }
    ensures begun { result ≡ done → join.new ≡ begun_join level }
    ensures joined { result ≡ done → (bytes : List ℕ) → IsJoinedTo plan join.new memory.new bytes }
{
    let plan = match plan_with_join_memory(plan, level, memory.len()) {
        Ok(plan) => plan,
        Err(fault) => return fault.status(),
    };
    // Called for the proof: its contract says that the plan can be carried out, so each level has a part.
    let _planned = plan.blocks();
    match JoinBuilder::begin(&plan, level, memory) {
        Ok(builder) => {
            *join = VerityJoin {
                level: builder.level,
                taken: builder.taken,
                closed: builder.closed,
            };
            DONE
        }
        // The plan has the level, or one level fewer, so this is never answered.
        Err(_) => Fault::Level.status(),
    }
}

/// Takes the next digests, one after another in the order of their parts: all of them, or those up to the one with
/// which a hash block closes, which is handed out with its place on the hash device (Linux kernel, dm-verity page,
/// "On-disk format"). It stands in the memory until digests are taken or the next one is handed out. `taken` is in
/// bytes. Then the rest of the digests, perhaps none, is handed in by further calls, until one hands out no hash
/// block. When all digests were taken, and a call hands out none, each hash block of this level and above was handed
/// out once.
///
/// The status is 0, or that of the first fault of the parameters, or of `Level`, `Length` (the memory's), `Length` (the
/// digests aren't whole), `Level` (more levels have closed than there are, or none after the last digest), `TooLong`
/// (there would be more digests than parts). Then structs and memory stay as they were. The answer is right where
/// struct and memory are as the call before left them, with the same parameters; others have an answer too.
#[unsafe(no_mangle)]
pub extern "C" fn verity_join_feed(
    params: &VerityParams,
    join: &mut VerityJoin,
    memory: &mut [u8],
    digests: &[u8],
    fed: &mut VerityFed,
) -> i32
    ensures status { result ≡ status_of (with_digests
        (with_join_memory (plan_of params.now) join.old.level (length memory.old)) join.old (length digests.now)) }
    ensures refused { result ≢ done → (join.new ≡ join.old) × (memory.new ≡ memory.old) × (fed.new ≡ fed.old) }
    ensures takes { result ≡ done
        → IfOk (plan_of params.now) (λ p. TakesDigests p join.old join.new (length digests.now) fed.new) }
    ensures joined { (bytes : List ℕ) → IsJoinedTo (plan_of params.now) join.old memory.old bytes
        → AreNextDigests (plan_of params.now) join.old (take fed.new.taken digests.now) bytes → result ≡ done
        → IsJoinedTo (plan_of params.now) join.new memory.new bytes }
    ensures block { (bytes : List ℕ) → IsJoinedTo (plan_of params.now) join.old memory.old bytes
        → AreNextDigests (plan_of params.now) join.old (take fed.new.taken digests.now) bytes → result ≡ done
        → IfOk (plan_of params.now) (λ p. HandsOutOfJoin p join.old join.new bytes memory.new fed.new) }
{
    feed_join(plan_of(params), join, memory, digests, fed)
}

/// The same of a file's fs-verity tree.
#[unsafe(no_mangle)]
pub extern "C" fn fsverity_join_feed(
    params: &FsverityParams,
    join: &mut VerityJoin,
    memory: &mut [u8],
    digests: &[u8],
    fed: &mut VerityFed,
) -> i32
    ensures status { result ≡ status_of (with_digests
        (with_join_memory (fsverity_plan_of params.now) join.old.level (length memory.old)) join.old
        (length digests.now)) }
    ensures refused { result ≢ done → (join.new ≡ join.old) × (memory.new ≡ memory.old) × (fed.new ≡ fed.old) }
    ensures takes { result ≡ done
        → IfOk (fsverity_plan_of params.now) (λ p. TakesDigests p join.old join.new (length digests.now) fed.new) }
    ensures joined { (bytes : List ℕ) → IsJoinedTo (fsverity_plan_of params.now) join.old memory.old bytes
        → AreNextDigests (fsverity_plan_of params.now) join.old (take fed.new.taken digests.now) bytes → result ≡ done
        → IsJoinedTo (fsverity_plan_of params.now) join.new memory.new bytes }
    ensures block { (bytes : List ℕ) → IsJoinedTo (fsverity_plan_of params.now) join.old memory.old bytes
        → AreNextDigests (fsverity_plan_of params.now) join.old (take fed.new.taken digests.now) bytes → result ≡ done
        → IfOk (fsverity_plan_of params.now) (λ p. HandsOutOfJoin p join.old join.new bytes memory.new fed.new) }
{
    feed_join(fsverity_plan_of(params), join, memory, digests, fed)
}

fn feed_join(
    plan: Result<Plan, Fault>,
    join: &mut VerityJoin,
    memory: &mut [u8],
    digests: &[u8],
    fed: &mut VerityFed,
) -> i32
    ensures status { result ≡ status_of (with_digests
        (with_join_memory plan join.old.level (length memory.old)) join.old (length digests.now)) }
    ensures refused { result ≢ done → (join.new ≡ join.old) × (memory.new ≡ memory.old) × (fed.new ≡ fed.old) }
    ensures takes { result ≡ done
        → IfOk plan (λ p. TakesDigests p join.old join.new (length digests.now) fed.new) }
    ensures joined { (bytes : List ℕ) → IsJoinedTo plan join.old memory.old bytes
        → AreNextDigests plan join.old (take fed.new.taken digests.now) bytes → result ≡ done
        → IsJoinedTo plan join.new memory.new bytes }
    ensures block { (bytes : List ℕ) → IsJoinedTo plan join.old memory.old bytes
        → AreNextDigests plan join.old (take fed.new.taken digests.now) bytes → result ≡ done
        → IfOk plan (λ p. HandsOutOfJoin p join.old join.new bytes memory.new fed.new) }
{
    let plan = match plan_with_join_memory(plan, join.level, memory.len()) {
        Ok(plan) => plan,
        Err(fault) => return fault.status(),
    };
    if digests.len() % plan.digest_len() != 0 {
        return Fault::Length.status();
    }
    let mut builder = builder_of(&plan, join);
    match builder.feed(memory, digests) {
        Ok(answer) => {
            *join = VerityJoin {
                level: builder.level,
                taken: builder.taken,
                closed: builder.closed,
            };
            *fed = fed_of(&plan, &answer);
            DONE
        }
        Err(fault) => Fault::of_feed(fault).status(),
    }
}

/// The hash block that `verity_join_feed` handed out last, once more. It stands in the memory until digests are taken
/// or the next one is handed out: so a join that was stored before it was written can go on. `taken` becomes 0, and
/// so do the other numbers if no hash block was handed out since the latest digest was taken.
///
/// The status is 0, or that of the first fault of the parameters, or of `Level` (the tree has no such level, more
/// levels have closed than there are, or none after the last digest), `TooLong` (more digests were taken than there are
/// parts). Then the answer's struct stays as it was. The answer is right where struct and memory are as a call left
/// them, with the same parameters; others have an answer too.
#[unsafe(no_mangle)]
pub extern "C" fn verity_join_last_block(
    params: &VerityParams,
    join: &VerityJoin,
    fed: &mut VerityFed,
) -> i32
    ensures status { result ≡ status_of (last_of_join_in
        (with_digests (with_parts (plan_of params.now) join.now.level) join.now 0) join.now) }
    ensures fed { fed.new ≡ value_or fed.old (last_of_join_in
        (with_digests (with_parts (plan_of params.now) join.now.level) join.now 0) join.now) }
    ensures block { (memory bytes : List ℕ) → IsJoinedTo (plan_of params.now) join.now memory bytes → result ≡ done
        → IfOk (plan_of params.now) (λ p. StandsLastOfJoin p join.now bytes memory fed.new) }
{
    set_last_of_join(plan_of(params), join, fed)
}

/// The same of a file's fs-verity tree.
#[unsafe(no_mangle)]
pub extern "C" fn fsverity_join_last_block(
    params: &FsverityParams,
    join: &VerityJoin,
    fed: &mut VerityFed,
) -> i32
    ensures status { result ≡ status_of (last_of_join_in
        (with_digests (with_parts (fsverity_plan_of params.now) join.now.level) join.now 0) join.now) }
    ensures fed { fed.new ≡ value_or fed.old (last_of_join_in
        (with_digests (with_parts (fsverity_plan_of params.now) join.now.level) join.now 0) join.now) }
    ensures block { (memory bytes : List ℕ) → IsJoinedTo (fsverity_plan_of params.now) join.now memory bytes
        → result ≡ done → IfOk (fsverity_plan_of params.now) (λ p. StandsLastOfJoin p join.now bytes memory fed.new) }
{
    set_last_of_join(fsverity_plan_of(params), join, fed)
}

// A part of its callers, since on x86-64 a function that calls no other may write below the stack pointer.
#[inline(always)]
fn set_last_of_join(plan: Result<Plan, Fault>, join: &VerityJoin, fed: &mut VerityFed) -> i32
    ensures status { result ≡ status_of (last_of_join_in
        (with_digests (with_parts plan join.now.level) join.now 0) join.now) }
    ensures fed { fed.new ≡ value_or fed.old (last_of_join_in
        (with_digests (with_parts plan join.now.level) join.now 0) join.now) }
    ensures block { (memory bytes : List ℕ) → IsJoinedTo plan join.now memory bytes → result ≡ done
        → IfOk plan (λ p. StandsLastOfJoin p join.now bytes memory fed.new) }
{
    let plan = match plan_with_level(plan, join.level) {
        Ok(plan) => plan,
        Err(fault) => return fault.status(),
    };
    let hash_block = match builder_of(&plan, join).last_block() {
        Ok(hash_block) => hash_block,
        Err(fault) => return Fault::of_feed(fault).status(),
    };
    let answer = Fed {
        taken: 0,
        hash_block,
    };
    *fed = fed_of(&plan, &answer);
    DONE
}

/// The root hash, when the digests of all parts were taken and all hash blocks handed out (Linux kernel, dm-verity
/// page, "Hash Tree"). The buffer for it is as long as the hash function's digests. It can be asked for as often as
/// one likes.
///
/// The status is 0, or that of the first fault of the parameters, or of `Level`, `Length` (the memory's), `Root` (the
/// buffer is shorter or longer), `Level` (more levels have closed than there are, or none after the last digest),
/// `TooLong`, `TooShort`, `Waiting` (a hash block is still to be handed out). Then the buffer stays as it was. The
/// answer is right where struct and memory are as the call before left them, with the same parameters.
#[unsafe(no_mangle)]
pub extern "C" fn verity_join_end(
    params: &VerityParams,
    join: &VerityJoin,
    memory: &[u8],
    root: &mut [u8],
) -> i32
    ensures status { result ≡ status_of (with_joined
        (with_join_memory (plan_of params.now) join.now.level (length memory.now)) join.now (length root.old)) }
    ensures refused { result ≢ done → root.new ≡ root.old }
    ensures root { (bytes : List ℕ) → IsJoinedTo (plan_of params.now) join.now memory.now bytes → result ≡ done
        → root.new ≡ value_or root.old (root_in (plan_of params.now) bytes) }
{
    // One buffer is enough here, so the other one counts as just as long.
    match joined(plan_of(params), join, memory, root.len(), root.len()) {
        Ok((_, hash)) => {
            set_digest(&hash, root);
            DONE
        }
        Err(fault) => fault.status(),
    }
}

/// The same of a file's fs-verity tree, with the digest of the file, as `fsverity_file_digest` makes it of the root
/// hash (Linux kernel, fs-verity page, "File digest computation"). The buffer for it is as long, too.
///
/// The status is 0, or that of the first fault of the parameters, or of `Level`, `Length` (the memory's), `Root` (the
/// buffer for the root hash is shorter or longer), `Length` (the file digest's), `Level` (more levels have closed than
/// there are, or none after the last digest), `TooLong`, `TooShort`, `Waiting`. Then both buffers stay as they were.
#[unsafe(no_mangle)]
pub extern "C" fn fsverity_join_end(
    params: &FsverityParams,
    join: &VerityJoin,
    memory: &[u8],
    root: &mut [u8],
    digest: &mut [u8],
) -> i32
    ensures status { result ≡ status_of (with_joined_file
        (with_join_memory (fsverity_plan_of params.now) join.now.level (length memory.now)) join.now (length root.old)
        (length digest.old)) }
    ensures refused { result ≢ done → (root.new ≡ root.old) × (digest.new ≡ digest.old) }
    ensures root { (bytes : List ℕ) → IsJoinedTo (fsverity_plan_of params.now) join.now memory.now bytes
        → result ≡ done → root.new ≡ value_or root.old (root_in (fsverity_plan_of params.now) bytes) }
    ensures digest { (bytes : List ℕ) → IsJoinedTo (fsverity_plan_of params.now) join.now memory.now bytes
        → result ≡ done → digest.new ≡ value_or digest.old (file_digest_of (fsverity_plan_of params.now) bytes) }
{
    match joined(
        fsverity_plan_of(params),
        join,
        memory,
        root.len(),
        digest.len(),
    ) {
        Ok((plan, hash)) => {
            set_root_and_digest(plan.settings(), plan.wanted(), &hash, root, digest);
            DONE
        }
        Err(fault) => fault.status(),
    }
}

/// The plan and the root hash of a join, if there is room for just that and a file digest; or the first fault: that of
/// the plan, `Level`, `Length` (the memory's), `Root`, `Length` (the file digest's), or of the join.
fn joined(
    plan: Result<Plan, Fault>,
    join: &VerityJoin,
    memory: &[u8],
    root_room: usize,
    digest_room: usize,
) -> Result<(Plan, Digest), Fault>
    ensures status { status_of result ≡ status_of (with_joined_file
        (with_join_memory plan join.now.level (length memory.now)) join.now root_room digest_room) }
    ensures planned { IfOk result (λ joined. plan ≡ Ok joined.0) }
    ensures room { IfOk result (λ joined. root_room ≡ digest_len joined.0.settings) }
    ensures digest { IfOk result (λ joined. digest_room ≡ digest_len joined.0.settings) }
    ensures size { IfOk result (λ joined. length joined.1 ≡ digest_len joined.0.settings) }
    ensures root { (bytes : List ℕ) → IsJoinedTo plan join.now memory.now bytes
        → IfOk result (λ joined. joined.1 ≡ root joined.0.settings (data_blocks joined.0 bytes)) }
{
    let plan = plan_with_join_memory(plan, join.level, memory.len())?;
    if root_room != plan.digest_len() {
        return Err(Fault::Root);
    }
    if digest_room != plan.digest_len() {
        return Err(Fault::Length);
    }
    match builder_of(&plan, join).end(memory) {
        Ok(hash) => Ok((plan, hash)),
        Err(fault) => Err(Fault::of_feed(fault)),
    }
}

/// The builder that a struct says.
fn builder_of(plan: &Plan, join: &VerityJoin) -> JoinBuilder
    ensures { result ≡ join_builder_of plan.now join.now }
{
    JoinBuilder {
        plan: *plan,
        level: join.level,
        taken: join.taken,
        closed: join.closed,
    }
}
