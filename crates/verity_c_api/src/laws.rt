//! Laws of what the library for C answers.
ghost use Rattle.std.specs.Prelude.{◌≡◌, ◌≢◌, ◌⊎◌, ℕ, ℤ, ◌+◌, ◌-◌, ◌/◌, ◌%◌, ◌*◌, ◌≤◌, ◌^◌, ◌<◌, true, List, [], ◌∷◌};
ghost use Rattle.std.specs.Prelude.{◌++◌, Result, Ok, codes, length};
ghost use Rattle.std.specs.List.{flat_map};
ghost use Rattle.verity_format.specs.Superblocks.{IsValidSuperblock, SuperblockFields, superblock_bytes};
ghost use Rattle.verity_plan.specs.PlanCounts.{level_count_of, count_under, most_level_count};
ghost use Rattle.verity_plan.specs.Plans.{PlanFields, plan_at, superblock_size};
ghost use Rattle.verity_plan.specs.Settings.{TreeSettingsFields, digest_len};
ghost use Rattle.verity_blocks.specs.Levels.{data_blocks, root};
ghost use Rattle.verity_pass.specs.KeptBlocks.{AreTrueOrCollide, CheckedBlock};
ghost use Rattle.verity_builders.specs.Parts.{bytes_of_part};
ghost use Rattle.verity_c_api.specs.Answers.{superblock_in};
ghost use Rattle.verity_c_api.specs.FileTrees.{with_last_block};
ghost use Rattle.verity_c_api.specs.Statuses.{done, fault_status, status_of};
ghost use Rattle.verity_c_api.specs.Texts.{text_of_fault, text_of_status};
ghost use Rattle.verity_c_api.specs.Building.{digest_of_fed, file_memory_length_of, memory_length_of, with_file_memory};
ghost use Rattle.verity_c_api.specs.BuildingLoop.{AreFedBy, BuildsTree, FedPiece, FeedingCall, FeedsPieces, GoesOn};
ghost use Rattle.verity_c_api.specs.BuildingLoop.{IsBegun, Kept, TreeGoesOn, bytes_of, calls_of, taken_by};
ghost use Rattle.verity_c_api.specs.Parameters.{fsverity_plan_of, fsverity_tree_of, parameters_of, plan_of, planned};
ghost use Rattle.verity_c_api.specs.PartsLoop.{AreCallsOfJoin, AreCallsOfPart, BuildsTreeFromParts, JoinCall};
ghost use Rattle.verity_c_api.specs.PartsLoop.{JoinCalls, JoinGoesOn, KeptJoin, KeptPart, PartCall, PartCalls};
ghost use Rattle.verity_c_api.specs.PartsLoop.{PartGoesOn, digests_of};
ghost use Rattle.verity_c_api.specs.ReadBack.{HasFields, IsReadBack, read_back};
ghost use Rattle.verity_c_api.specs.KeptBlocks.{AreAcceptedByCalls};
ghost use Rattle.verity_c_api.specs.TrustedBlocks.{FileBlock, IsAcceptedFor, IsBlockOf, ShowsCollision};
ghost use Rattle.verity_c_api.specs.declared.build.VerityBuild.{VerityBuild};
ghost use Rattle.verity_c_api.specs.declared.fault.Fault.{Fault};
ghost use Rattle.verity_c_api.specs.declared.parameters.FsverityParams.{FsverityParams};
ghost use Rattle.verity_c_api.specs.declared.parameters.VerityParams.{VerityParams};

/// The parameters that are read of a superblock make the plan of its tree at the hash offset, if that is a multiple of 512.
pub fn read_parameters_make_the_plan()
    ensures { (v : SuperblockFields) (offset : ℕ) → IsValidSuperblock v → offset % superblock_size ≡ 0
        → plan_of (parameters_of v offset) ≡ planned (plan_at v.tree v.blocks offset true) }
{}

/// The parameters that are read of a superblock write it again, if they make a plan.
pub fn read_parameters_write_the_superblock()
    ensures { (v : SuperblockFields) (offset : ℕ) (p : PlanFields) → IsValidSuperblock v
        → plan_of (parameters_of v offset) ≡ Ok p
        → superblock_in (plan_of (parameters_of v offset)) v.uuid superblock_size ≡ Ok (superblock_bytes v) }
{}

/// Each fault has its text by its status, and no text of a status has more than 63 bytes.
pub fn statuses_have_their_texts()
    ensures done { text_of_status done ≡ codes "success" }
    ensures fault { (fault : Fault) → text_of_status (fault_status fault) ≡ text_of_fault fault }
    ensures most { (status : ℤ) → length (text_of_status status) ≤ 63 }
{}

/// Parameters that make a plan write a superblock, and what is read of it are these parameters, but for what it doesn't
/// say: hash offset, whether a superblock stands there, and the bytes of the salt that don't count. Read at the hash
/// offset of parameters that have a superblock there, they make the same plan.
pub fn written_parameters_are_read_back()
    ensures bytes { (params : VerityParams) (p : PlanFields) → HasFields params → plan_of params ≡ Ok p
        → (bytes : List ℕ) × IsReadBack params bytes }
    ensures plan { (params : VerityParams) (p : PlanFields) → HasFields params → plan_of params ≡ Ok p
        → params.no_superblock ≡ 0 → plan_of (read_back params params.hash_offset) ≡ Ok p }
{}

/// The hash blocks above a data block have together at most 2621440 bytes, and in a file's tree at most 2097152: five,
/// or four, of the largest hash blocks. There are plans that reach each number.
pub fn paths_are_short()
    ensures verity { (params : VerityParams) (p : PlanFields) → plan_of params ≡ Ok p
        → (p.settings.hash_block ≡ params.hash_block_size)
        × (level_count_of p * p.settings.hash_block ≤ 2621440) }
    ensures fsverity { (params : FsverityParams) (p : PlanFields) → fsverity_plan_of params ≡ Ok p
        → (p.settings.hash_block ≡ params.block_size)
        × (level_count_of p * p.settings.hash_block ≤ 2097152) }
    ensures verity_reached { (params : VerityParams) × (p : PlanFields) × (plan_of params ≡ Ok p)
        × (level_count_of p * p.settings.hash_block ≡ 2621440) }
    ensures fsverity_reached { (params : FsverityParams) × (p : PlanFields) × (fsverity_plan_of params ≡ Ok p)
        × (level_count_of p * p.settings.hash_block ≡ 2097152) }
{}

/// The memory that a tree is built in has at most 2629632 bytes, and for a file's tree at most 2621440. There are plans
/// and settings that reach each number.
pub fn memories_are_short()
    ensures verity { (params : VerityParams) (p : PlanFields) → plan_of params ≡ Ok p → memory_length_of p ≤ 2629632 }
    ensures fsverity { (params : FsverityParams) (tree : TreeSettingsFields) → fsverity_tree_of params ≡ Ok tree
        → file_memory_length_of tree ≤ 2621440 }
    ensures verity_reached { (params : VerityParams) × (p : PlanFields) × (plan_of params ≡ Ok p)
        × (memory_length_of p ≡ 2629632) }
    ensures fsverity_reached { (params : FsverityParams) × (tree : TreeSettingsFields)
        × (fsverity_tree_of params ≡ Ok tree) × (file_memory_length_of tree ≡ 2621440) }
{}

/// A block that is accepted by parameters and a root hash that have a file's digest is the file's, and so are
/// parameters and root hash, wherever they come from; or two different descriptors, or two different blocks at one
/// level, have one hash.
pub fn file_digests_bind_each_block()
    ensures { (params : FsverityParams) (tree : TreeSettingsFields) (bytes digest : List ℕ) (b : FileBlock)
        → fsverity_tree_of params ≡ Ok tree → length bytes < 2 ^ 64
        → digest_of_fed (fsverity_tree_of params) bytes ≡ Ok digest → IsAcceptedFor b digest
        → IsBlockOf tree bytes b ⊎ ShowsCollision tree bytes b }
{}

/// Blocks that calls accept one after another, the top one by the root hash of some data and each other by one that was
/// accepted before it at its parent's place, are all the tree's, whichever are kept, forgotten and read again in between;
/// or one of them is not, and has the salted hash of the tree's block at its place.
pub fn kept_blocks_are_true()
    ensures verity { (params : VerityParams) (p : PlanFields) (bytes : List ℕ) (count : ℕ) (blocks : ℕ → CheckedBlock)
        → plan_of params ≡ Ok p
        → AreAcceptedByCalls (plan_of params) p (root p.settings (data_blocks p bytes)) count blocks
        → AreTrueOrCollide p bytes count blocks }
    ensures fsverity { (params : FsverityParams) (p : PlanFields) (bytes : List ℕ) (count : ℕ)
        (blocks : ℕ → CheckedBlock) → fsverity_plan_of params ≡ Ok p
        → AreAcceptedByCalls (fsverity_plan_of params) p (root p.settings (data_blocks p bytes)) count blocks
        → AreTrueOrCollide p bytes count blocks }
{}

/// A tree is built by any calls of `verity_build_feed` that take all bytes, if the last one hands out no hash block;
/// and so by the loop of verity.h, over any pieces that are together as long as the data.
pub fn calls_build_the_tree()
    ensures calls { (params : VerityParams) (p : PlanFields) (begun after : Kept) (calls : List FeedingCall)
        (last : FeedingCall) → plan_of params ≡ Ok p → IsBegun params begun
        → AreFedBy params begun (calls ++ last ∷ []) after → last.fed.block_length ≡ 0
        → after.build.fed ≡ p.wanted
        → BuildsTree params p (flat_map taken_by (calls ++ last ∷ [])) (calls ++ last ∷ []) after }
    ensures pieces { (params : VerityParams) (p : PlanFields) (begun after : Kept) (pieces : List FedPiece)
        → plan_of params ≡ Ok p → IsBegun params begun → FeedsPieces params begun pieces after
        → length (bytes_of pieces) ≡ p.wanted
        → BuildsTree params p (bytes_of pieces) (calls_of pieces) after }
{}

/// The loops of verity.h end, whatever stands in struct and memory: for a piece of n bytes and a tree of L levels, at
/// most n * (L + 1) + L of its calls hand out a hash block; for a part of level L, just as many; for n digests and a join
/// of level l, n * (L - l + 1) + L - l. For a file's tree L is the most levels that it can have: at most
/// n * (L + 1) + L calls leave bytes of a piece of n bytes, and none hands out a last hash block of level L or above.
pub fn building_loops_end()
    ensures tree { (params : VerityParams) (p : PlanFields) (kept : Kept) (piece : List ℕ) (calls : List FeedingCall)
        → plan_of params ≡ Ok p → GoesOn params kept piece calls
        → length calls ≤ length piece * (level_count_of p + 1) + level_count_of p }
    ensures part { (made : Result PlanFields Fault) (kept : KeptPart) (piece : List ℕ) (calls : List PartCall)
        → PartGoesOn made kept piece calls
        → length calls ≤ length piece * (kept.part.level + 1) + kept.part.level }
    ensures join { (made : Result PlanFields Fault) (p : PlanFields) (kept : KeptJoin) (digests : List ℕ)
        (calls : List JoinCall) → made ≡ Ok p → JoinGoesOn made kept digests calls
        → length calls ≤ length digests / digest_len p.settings * (level_count_of p - kept.join.level + 1)
        + (level_count_of p - kept.join.level) }
    ensures file_tree { (params : FsverityParams) (tree : TreeSettingsFields) (kept : Kept) (piece : List ℕ)
        (calls : List FeedingCall) → fsverity_tree_of params ≡ Ok tree → TreeGoesOn params kept piece calls
        → length calls ≤ length piece * (most_level_count tree + 1) + most_level_count tree }
    ensures file_end { (params : FsverityParams) (tree : TreeSettingsFields) (build : VerityBuild)
        (level memory_length room : ℕ) → fsverity_tree_of params ≡ Ok tree → most_level_count tree ≤ level
        → status_of (with_last_block (with_file_memory (fsverity_tree_of params) memory_length) build level room)
        ≢ done }
{}

/// A tree is built from the parts of a level, each apart from the others, and their join: by any calls of
/// `verity_part_feed` that take a part's bytes, for each part, and any calls of `verity_join_feed` that take the
/// digests that `verity_part_end` gives, in the order of the parts, if the last call for each part and the last one for
/// the join hand out no hash block. The hash blocks may be written in any order. A part may be begun, given up and built
/// again, too: what any attempt at it handed out, over the same data, may be written at any time, also later. The same
/// holds of a file's tree.
pub fn calls_build_the_tree_from_parts()
    ensures verity { (params : VerityParams) (p : PlanFields) (level : ℕ) (bytes : List ℕ) (parts : ℕ → PartCalls)
        (join : JoinCalls) → plan_of params ≡ Ok p → p.wanted ≤ length bytes
        → ((number : ℕ) → number < count_under p level
        → AreCallsOfPart (plan_of params) level number (bytes_of_part p level number bytes) (parts number))
        → AreCallsOfJoin (plan_of params) level (digests_of (count_under p level) parts) join
        → BuildsTreeFromParts (plan_of params) p level bytes parts join }
    ensures fsverity { (params : FsverityParams) (p : PlanFields) (level : ℕ) (bytes : List ℕ) (parts : ℕ → PartCalls)
        (join : JoinCalls) → fsverity_plan_of params ≡ Ok p → p.wanted ≤ length bytes
        → ((number : ℕ) → number < count_under p level
        → AreCallsOfPart (fsverity_plan_of params) level number (bytes_of_part p level number bytes) (parts number))
        → AreCallsOfJoin (fsverity_plan_of params) level (digests_of (count_under p level) parts) join
        → BuildsTreeFromParts (fsverity_plan_of params) p level bytes parts join }
{}
