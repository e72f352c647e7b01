//! Laws of trees that are built of pieces and of parts, for all settings and data, pieces and calls.
ghost use Rattle.std.specs.Prelude.{◌≡◌, ◌↔◌, ℕ, ◌+◌, ◌-◌, ◌^◌, ◌<◌, ◌≤◌, List, [], ◌++◌, length, slice_index_or};
ghost use Rattle.std.specs.Prelude.{◌*◌};
ghost use Rattle.verity_plan.specs.Plans.{plan_of_file, PlanFields, IsPlan};
ghost use Rattle.verity_plan.specs.PlanCounts.{level_count_of, count_under};
ghost use Rattle.verity_plan.specs.Settings.{fan};
ghost use Rattle.verity_blocks.specs.ClosingOrder.{BlockIndex, closed_after, times};
ghost use Rattle.std.specs.List.{flat_map, range_with_len};
ghost use Rattle.verity_builders.specs.Feeding.{BuildsInCalls, FeedCall, FeedsCalls, FeedsPieces, FileCall, IsFed, IsFedFile};
ghost use Rattle.verity_builders.specs.Feeding.{IsAfterCalls, bytes_fed};
ghost use Rattle.verity_builders.specs.FileTrees.{AreLastBlocks, BuildsFileTree, FileTreeCall, IsAfterTreeCalls, IsFedFileTree};
ghost use Rattle.verity_builders.specs.FileTrees.{file_of_calls};
ghost use Rattle.verity_blocks.specs.TreeWriting.{device_with, tree_on_device};
ghost use Rattle.verity_builders.specs.declared.file_builder.FileBuilder.{FileBuilder};
ghost use Rattle.verity_builders.specs.declared.file_tree_builder.FileTreeBuilder.{FileTreeBuilder};
ghost use Rattle.verity_builders.specs.declared.tree_builder.TreeBuilder.{TreeBuilder};
ghost use Rattle.verity_blocks.specs.Levels.{blocks_up, data_blocks, level};
ghost use Rattle.verity_builders.specs.Parts.{BuildsFromParts, BuildsJoinInCalls, BuildsPartInCalls, HasPart, JoinInCalls};
ghost use Rattle.verity_builders.specs.Parts.{PartInCalls, bytes_of_part, join_order, part_order};
ghost use Rattle.verity_builders.specs.Parts.{plan_of_part};
ghost use Rattle.verity_builders.specs.PartsBuiltAgain.{AreWrites};

/// A file that is fed in pieces, whatever they are, is their bytes joined, and the settings stay; so `end` answers its
/// root hash by the settings at the beginning.
pub fn any_pieces_are_the_file()
    ensures { (b after : FileBuilder) (memory memory_after : List ℕ) (pieces : List (List ℕ)) → IsFedFile b memory []
        → FeedsPieces b memory pieces after memory_after
        → (after.settings ≡ b.settings) × IsFedFile after memory_after (flat_map (λ piece. piece) pieces) }
{}

/// Where the root hash is asked for between pieces, as often as one likes, the file is still their bytes joined, and the
/// settings stay.
pub fn asking_between_pieces_changes_nothing()
    ensures { (b after : FileBuilder) (memory memory_after : List ℕ) (calls : List FileCall) → IsFedFile b memory []
        → IsAfterCalls b memory calls after memory_after
        → (after.settings ≡ b.settings) × IsFedFile after memory_after (flat_map bytes_fed calls) }
{}

/// A tree that is built in any calls is what `build` leaves on the device: its data are the bytes that were taken, joined,
/// and its hash blocks were handed out in closing order, each once. So `end` answers its root hash.
pub fn any_calls_build_the_tree()
    ensures { (b after : TreeBuilder) (memory memory_after device : List ℕ) (calls : List FeedCall)
        → IsPlan b.plan → IsFed b memory [] → FeedsCalls b memory calls after memory_after
        → after.fed ≡ b.plan.wanted → after.closed ≡ level_count_of b.plan
        → IsFed after memory_after (flat_map (λ call. call.taken) calls)
        × BuildsInCalls b.plan (flat_map (λ call. call.taken) calls) calls device }
{}

/// A builder that hands out a file's hash blocks stands as one that gives the root hash alone, of the same numbers and
/// memory, when no hash block waits: so a file that was begun with the one can go on with the other.
pub fn file_builders_are_one()
    ensures { (b : FileTreeBuilder) (memory fed : List ℕ) → b.closed ≡ 0
        → IsFedFileTree b memory fed ↔ IsFedFile (record { settings = b.settings; fed = b.fed }) memory fed }
{}

/// A file's tree whose hash blocks are handed out in any calls, whenever and however often the root hash or a hash block that
/// is left is asked for between them, is what `build` leaves on the device, once the last hash block of each level is put
/// at its place too: its data are the bytes that were taken, joined, and its hash blocks were handed out in closing order.
pub fn any_calls_build_the_tree_of_a_file()
    ensures { (b after : FileTreeBuilder) (memory memory_after device : List ℕ) (calls : List FileTreeCall)
        (blocks : ℕ → List ℕ) → IsFedFileTree b memory [] → IsAfterTreeCalls b memory calls after memory_after
        → after.closed ≡ 0 → IsPlan (plan_of_file b.settings (length (file_of_calls calls)))
        → AreLastBlocks (plan_of_file b.settings (length (file_of_calls calls))) (file_of_calls calls) blocks
        → IsFedFileTree after memory_after (file_of_calls calls)
        × BuildsFileTree (plan_of_file b.settings (length (file_of_calls calls))) (file_of_calls calls) calls blocks device }
{}

/// The blocks of each level above a part's data alone are blocks of the whole tree: those from the part's first one on.
pub fn parts_are_of_the_tree()
    ensures { (p : PlanFields) (level part l k : ℕ) (bytes : List ℕ) → IsPlan p → HasPart p level part → l ≤ level
        → k < fan p.settings ^ (level - l)
        → slice_index_or (blocks_up p.settings
        (data_blocks (plan_of_part p level part) (bytes_of_part p level part bytes)) l) k []
        ≡ slice_index_or (blocks_up p.settings (data_blocks p bytes) l) (part * fan p.settings ^ (level - l) + k) [] }
{}

/// The hash blocks of all parts of a level and of their join are together those of the closing order, each as often: so
/// each of the tree once, and nothing else. In whatever order the tree's hash blocks are put at their places, each at
/// least once and nothing else, the device is the one that building leaves.
pub fn parts_joined_are_the_tree()
    ensures once { (p : PlanFields) (level l j : ℕ) → times l j
        (flat_map (λ part. part_order p level part) (range_with_len 0 (count_under p level)) ++ join_order p level)
        ≡ times l j (closed_after (fan p.settings) p.blocks p.blocks) }
    ensures any_order { (p : PlanFields) (order : List BlockIndex) (bytes device : List ℕ) → IsPlan p
        → ((l j : ℕ) → 0 < times l j order ↔ 0 < times l j (closed_after (fan p.settings) p.blocks p.blocks))
        → device_with p.settings (data_blocks p bytes) p.base order device
        ≡ tree_on_device p (data_blocks p bytes) device }
{}

/// A tree whose parts are built in any calls, apart from one another, and joined by the digests that they end with is
/// what `build` leaves on the device, in whatever order the hash blocks that these calls handed out are put at their
/// places, and however often. Each was handed out once, and the join ends with the root hash. So the parts can be built
/// in any order and at the same time. A part can be begun, given up and built again, too: what any attempt at it handed
/// out, over the same data, may be put at its place at any time, also later.
pub fn any_calls_build_the_tree_from_parts()
    ensures { (p : PlanFields) (level : ℕ) (bytes device : List ℕ) (parts : ℕ → PartInCalls) (join : JoinInCalls)
        (writes : List FeedCall) → IsPlan p → level ≤ level_count_of p
        → ((part : ℕ) → part < count_under p level → BuildsPartInCalls p level part bytes (parts part))
        → BuildsJoinInCalls p level bytes parts join
        → AreWrites p level bytes parts join writes
        → BuildsFromParts p level bytes parts join writes device }
{}
