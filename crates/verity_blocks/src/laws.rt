//! Laws of the definitions of trees, for all settings and data: levels, and the order in which hash blocks close.
ghost use Rattle.std.specs.Prelude.{◌≡◌, ℕ, ◌+◌, ◌-◌, ◌/◌, ◌^◌, ◌<◌, ◌≤◌, List, [], length, slice_index_or};
ghost use Rattle.std.specs.Int.{div_ceil};
ghost use Rattle.verity_plan.specs.Plans.{level_count, level_size};
ghost use Rattle.verity_plan.specs.Settings.{TreeSettingsFields, fan};
ghost use Rattle.verity_blocks.specs.ClosingOrder.{ClosesOnce, closed_after, times};
ghost use Rattle.verity_blocks.specs.TreeOnDevice.{tree_block};
ghost use Rattle.verity_blocks.specs.Levels.{level, height};

/// Each level has as many blocks as the kernel's arithmetic says.
pub fn levels_have_sizes()
    ensures { (s : TreeSettingsFields) (blocks : List (List ℕ)) (l : ℕ)
        → length (level s blocks l) ≡ level_size (fan s) (length blocks) l }
{}

/// The number of levels by lists is the number by powers of the fan-out.
pub fn level_counts_agree()
    ensures { (s : TreeSettingsFields) (blocks : List (List ℕ)) → height s blocks ≡ level_count (fan s) (length blocks) }
{}

/// The block of a level that closes with data block i is the last one above the first i + 1 data blocks.
pub fn closing_blocks_by_count()
    ensures { (fan i l : ℕ) → 0 < fan → div_ceil (i + 1) (fan ^ (l + 1)) - 1 ≡ i / fan ^ (l + 1) }
{}

/// The closing order has each block of the tree once.
pub fn closing_order_is_once()
    ensures { (fan n : ℕ) → 0 < fan → ClosesOnce fan n }
{}

/// What has closed after some data blocks is the same for all data that begins with these.
pub fn closed_blocks_stay()
    ensures { (s : TreeSettingsFields) (xs ys : List (List ℕ)) (i l j : ℕ) → length xs ≡ length ys → i ≤ length xs
        → ((k : ℕ) → k < i → slice_index_or xs k [] ≡ slice_index_or ys k [])
        → 0 < times l j (closed_after (fan s) (length xs) i)
        → tree_block s xs l j ≡ tree_block s ys l j }
{}
