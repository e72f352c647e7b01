//! Laws of trees on devices, for all settings and data: verdicts, paths and links, root hashes.
ghost use Rattle.std.specs.Prelude.{◌≡◌, ◌⊎◌, ◌↔◌, ℕ, ◌+◌, ◌<◌, ◌≤◌, List, [], length, slice_index_or};
ghost use Rattle.std.specs.Prelude.{Result, Ok, Err, slice_index, take, ◌*◌, ◌≢◌};
ghost use Rattle.verity_hash.specs.declared.salting.SaltRule.TheVariants.{PaddedBefore};
ghost use Rattle.verity_plan.specs.Plans.{end_place_of, PlanFields, IsPlan};
ghost use Rattle.verity_plan.specs.PlanCounts.{level_count_of};
ghost use Rattle.verity_pass.specs.Collisions.{Collide, TreesCollide, hashed_last, with_salt};
ghost use Rattle.verity_pass.specs.FirstDifferentBlock.{IsFirstDifferent, names_data_block};
ghost use Rattle.verity_blocks.specs.TreeOnDevice.{HoldsTree};
ghost use Rattle.verity_blocks.specs.TreeWriting.{tree_on_device};
ghost use Rattle.verity_pass.specs.declared.comparing.CompareFault.TheVariants.{RootDiffers};
ghost use Rattle.verity_blocks.specs.Levels.{data_blocks, root};
ghost use Rattle.verity_pass.specs.KeptBlocks.{AreAccepted, AreTrueOrCollide, CheckedBlock};
ghost use Rattle.verity_pass.specs.Links.{AreLinked, IsCollision, checked_link, checked_top, joined};
ghost use Rattle.verity_pass.specs.Paths.{ChecksBlock, HasCollision, IsAccepted, true_chain, true_path};
ghost use Rattle.verity_pass.specs.Verdicts.{verdict};
ghost use Rattle.verity_pass.specs.declared.path.PathFault.{PathFault};

/// The verdict is that all is right exactly if the device holds the whole tree and the root hash is the tree's.
pub fn right_devices_hold_the_tree()
    ensures { (p : PlanFields) (device bytes digest : List ℕ) → IsPlan p
        → (verdict p device bytes digest ≡ Ok tt → HoldsTree p device bytes digest)
        × (HoldsTree p device bytes digest → verdict p device bytes digest ≡ Ok tt) }
{}

/// A device on which each block of a tree is put at its place, whatever it held before, holds the whole tree. Every byte
/// outside the tree's range is as before, or a zero past the old end.
pub fn built_devices_hold_the_tree()
    ensures holds { (p : PlanFields) (bytes device : List ℕ) → IsPlan p → p.wanted ≤ length bytes
        → HoldsTree p (tree_on_device p (data_blocks p bytes) device) bytes (root p.settings (data_blocks p bytes)) }
    ensures beside { (p : PlanFields) (bytes device : List ℕ) (i : ℕ) → IsPlan p
        → (i < p.base * p.settings.hash_block) ⊎ (end_place_of p * p.settings.hash_block ≤ i)
        → slice_index (tree_on_device p (data_blocks p bytes) device) i ≡ slice_index device i }
{}

/// A data block and its path have one answer: accepted exactly if the path holds at every level, else the first fault.
pub fn one_answer_is_right()
    ensures { (p : PlanFields) (i : ℕ) (block path root : List ℕ) (x y : Result Unit PathFault)
        → ChecksBlock p i block path root x → ChecksBlock p i block path root y → x ≡ y }
{}

/// A data block that is accepted against the root hash of some data is the data's; or a level is named at which two
/// different blocks have one salted hash.
pub fn accepted_blocks_are_true()
    ensures { (p : PlanFields) (bytes : List ℕ) (i : ℕ) (block path : List ℕ) → IsPlan p
        → IsAccepted p i block path (root p.settings (data_blocks p bytes))
        → (block ≡ slice_index_or (data_blocks p bytes) i []) ⊎ HasCollision p (data_blocks p bytes) i block path }
{}

/// Together with the plan a root hash binds the data: if the trees above two pieces of data have one root hash by one
/// plan, the two have the same data blocks and, if each is long enough, the same covered bytes; or at one place of the
/// two trees different messages are hashed, and have one hash.
pub fn root_hashes_bind_the_data()
    ensures blocks { (p : PlanFields) (x y : List ℕ) → IsPlan p
        → root p.settings (data_blocks p x) ≡ root p.settings (data_blocks p y)
        → (data_blocks p x ≡ data_blocks p y) ⊎ TreesCollide p.settings (data_blocks p x) (data_blocks p y) }
    ensures bytes { (p : PlanFields) (x y : List ℕ) → IsPlan p → p.wanted ≤ length x → p.wanted ≤ length y
        → root p.settings (data_blocks p x) ≡ root p.settings (data_blocks p y)
        → (take p.wanted x ≡ take p.wanted y) ⊎ TreesCollide p.settings (data_blocks p x) (data_blocks p y) }
{}

/// A root hash of dm-verity binds the salt too: if two plans that may differ in the salt alone have one root hash over
/// some data each, their salts are the same; or what is hashed last are different messages with one hash.
pub fn root_hashes_bind_the_salt()
    ensures { (p : PlanFields) (salt x y : List ℕ) → IsPlan p → IsPlan (with_salt p salt)
        → p.settings.rule ≢ PaddedBefore
        → root p.settings (data_blocks p x) ≡ root (with_salt p salt).settings (data_blocks (with_salt p salt) y)
        → (p.settings.salt ≡ salt)
        ⊎ Collide p.settings.algorithm (hashed_last p x) (hashed_last (with_salt p salt) y) }
{}

/// If the verdict on some data is that all is right, against the root hash of other data by the same plan, the two are
/// the same in every covered byte; or their trees show a collision of the hash function.
pub fn right_data_are_true()
    ensures { (p : PlanFields) (device x y : List ℕ) → IsPlan p → p.wanted ≤ length y
        → verdict p device x (root p.settings (data_blocks p y)) ≡ Ok tt
        → (take p.wanted x ≡ take p.wanted y) ⊎ TreesCollide p.settings (data_blocks p x) (data_blocks p y) }
{}

/// Each data block is accepted by its true path.
pub fn true_paths_are_accepted()
    ensures { (p : PlanFields) (bytes : List ℕ) (i : ℕ) → IsPlan p → i < p.blocks
        → IsAccepted p i (slice_index_or (data_blocks p bytes) i [])
        (true_path p.settings (data_blocks p bytes) i (level_count_of p))
        (root p.settings (data_blocks p bytes)) }
{}

/// Blocks that are accepted one by one, each by the hash block above it and the top one by the root hash, are just what is
/// accepted as a data block and its path.
pub fn accepted_links_are_accepted_paths()
    ensures { (p : PlanFields) (i : ℕ) (blocks : ℕ → List ℕ) (root : List ℕ)
        → ((l : ℕ) → l < level_count_of p → length (blocks (l + 1)) ≡ p.settings.hash_block)
        → AreLinked p i blocks root ↔ IsAccepted p i (blocks 0) (joined blocks (level_count_of p)) root }
{}

/// A block that is accepted by a hash block of the tree, or by the root hash, is the tree's; or the two are different and
/// have one salted hash.
pub fn accepted_links_are_true()
    ensures link { (p : PlanFields) (bytes : List ℕ) (i l : ℕ) (block : List ℕ) → IsPlan p
        → checked_link p i l block (true_chain p.settings (data_blocks p bytes) i (l + 1)) ≡ Ok tt
        → (block ≡ true_chain p.settings (data_blocks p bytes) i l)
        ⊎ IsCollision p.settings block (true_chain p.settings (data_blocks p bytes) i l) }
    ensures top { (p : PlanFields) (bytes : List ℕ) (i : ℕ) (block : List ℕ) → IsPlan p
        → checked_top p i block (root p.settings (data_blocks p bytes)) ≡ Ok tt
        → (block ≡ true_chain p.settings (data_blocks p bytes) i (level_count_of p))
        ⊎ IsCollision p.settings block (true_chain p.settings (data_blocks p bytes) i (level_count_of p)) }
{}

/// Blocks that are accepted one after another, the top one by the root hash of some data and each other by one that was
/// accepted before it at its parent's place, are all the tree's, whichever are kept, forgotten and read again in between;
/// or one of them is not, and has the salted hash of the tree's block at its place.
pub fn kept_blocks_are_true()
    ensures { (p : PlanFields) (bytes : List ℕ) (count : ℕ) (blocks : ℕ → CheckedBlock) → IsPlan p
        → AreAccepted p (root p.settings (data_blocks p bytes)) count blocks
        → AreTrueOrCollide p bytes count blocks }
{}

/// If a device holds the tree of some data, the verdict on other data that are long enough, against that root hash, is
/// that all is right, and the two are the same in every covered byte; or it names the first data block in which they
/// differ; or their trees show a collision of the hash function. Where there is just one data block, and so no hash
/// block, it is the root hash that differs.
pub fn verdicts_name_the_first_different_block()
    ensures several { (p : PlanFields) (device x y digest : List ℕ) → IsPlan p → 1 < p.blocks
        → HoldsTree p device x digest → p.wanted ≤ length y
        → ((verdict p device y digest ≡ Ok tt) × (take p.wanted x ≡ take p.wanted y))
        ⊎ ((i : ℕ) × IsFirstDifferent p x y i × (verdict p device y digest ≡ Err (names_data_block p i)))
        ⊎ TreesCollide p.settings (data_blocks p x) (data_blocks p y) }
    ensures one { (p : PlanFields) (device x y digest : List ℕ) → IsPlan p → p.blocks ≡ 1
        → HoldsTree p device x digest → p.wanted ≤ length y
        → ((verdict p device y digest ≡ Ok tt) × (take p.wanted x ≡ take p.wanted y))
        ⊎ (IsFirstDifferent p x y 0
        × (verdict p device y digest ≡ Err (RootDiffers (root p.settings (data_blocks p y)))))
        ⊎ TreesCollide p.settings (data_blocks p x) (data_blocks p y) }
{}
