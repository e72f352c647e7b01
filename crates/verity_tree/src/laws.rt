//! Laws of trees: each holds for all settings and data. All but one stand in the crates below, and here too.
ghost use Rattle.std.specs.Prelude.{◌≡◌, ℕ, ◌≤◌, List, length};
ghost use Rattle.std.specs.Prelude.{Bool, find};
ghost use Rattle.verity_plan.specs.Plans.{PlanFields};
ghost use Rattle.verity_plan.specs.Settings.{fan};
ghost use Rattle.verity_blocks.specs.ClosingOrder.{BlockIndex, closed_after};
ghost use Rattle.verity_tree.specs.FirstDifferences.{earliest, first_of_each};
ghost use Rattle.verity_blocks.specs.Levels.{data_blocks, level};
ghost use Rattle.verity_pass.specs.Verdicts.{differs, verdict, verdict_by};

pub use verity_blocks::laws::{
    closed_blocks_stay, closing_blocks_by_count, closing_order_is_once, level_counts_agree,
    levels_have_sizes,
};
pub use verity_builders::laws::{
    any_calls_build_the_tree, any_calls_build_the_tree_from_parts,
    any_calls_build_the_tree_of_a_file, any_pieces_are_the_file,
    asking_between_pieces_changes_nothing, file_builders_are_one, parts_are_of_the_tree,
    parts_joined_are_the_tree,
};
pub use verity_pass::laws::{
    accepted_blocks_are_true, accepted_links_are_accepted_paths, accepted_links_are_true,
    built_devices_hold_the_tree, kept_blocks_are_true, one_answer_is_right, right_data_are_true,
    right_devices_hold_the_tree, root_hashes_bind_the_data, root_hashes_bind_the_salt,
    true_paths_are_accepted, verdicts_name_the_first_different_block,
};
pub use verity_plan::laws::{
    fans_are_greatest, level_counts_are_least, places_are_once, slots_are_least, slots_fit,
};

/// The first hash block of a tree in closing order that passes a test, such as that it differs, is the earliest of the
/// first ones of a level's parts and of the join, which can be looked for apart from one another. So where there is all
/// the data, a check that compares part by part comes to the verdict, and names the very block that it names.
pub fn first_differences_of_parts_name_the_first()
    ensures first { (p : PlanFields) (level : ℕ) (test : BlockIndex → Bool)
        → find test (closed_after (fan p.settings) p.blocks p.blocks)
        ≡ earliest (fan p.settings) p.blocks (first_of_each p level test) }
    ensures verdict { (p : PlanFields) (level : ℕ) (device bytes digest : List ℕ) → p.wanted ≤ length bytes
        → verdict p device bytes digest ≡ verdict_by p device bytes
        (earliest (fan p.settings) p.blocks (first_of_each p level (differs p (data_blocks p bytes) device))) digest }
{}
