//! What becomes of a hash block when it has closed.
ghost use Rattle.std.specs.Prelude.{◌≡◌, ℕ, ◌++◌, ◌∷◌, [], Bool, List, length, IfErr, IfOk};
ghost use Rattle.verity_io.specs.Counting.{Counts, TheDevice, failed_at};
ghost use Rattle.verity_plan.specs.Plans.{HasBlock, PlanFields};
ghost use Rattle.verity_blocks.specs.ClosingOrder.{BlockIndex, block_index};
ghost use Rattle.verity_blocks.specs.TreeOnDevice.{tree_block};
ghost use Rattle.verity_pass.specs.Steps.OnClosed.{side_by, stop_at};
ghost use Rattle.verity_pass.specs.declared.pass.pass_fault.Stop.{Stop};

use verity_io::Device;
use verity_plan::Plan;

/// What becomes of a hash block that has closed.
pub(crate) trait OnClosed {
    /// Why a pass stops at one.
    type Why;

    /// Whether the device failed.
    ghost is_failure: { Self.Why → Bool };

    /// How a device is to what it was, whatever the hash blocks are: known also where the source doesn't tell its bytes.
    ghost keeps: { List ℕ → List ℕ → Type 0 };

    /// What a device is once these hash blocks have closed, from what it was.
    ghost leaves: { PlanFields → List (List ℕ) → List BlockIndex → List ℕ → List ℕ → Type 0 };

    /// What a device is once these have closed, if the pass stops at this hash block, and why it does.
    ghost stops: { PlanFields → List (List ℕ) → List BlockIndex → Stop Self.Why → List ℕ → List ℕ → Type 0 };

    /// Takes a hash block that has closed. `stored` is room for one.
    fn take<D: Device>(
        &self,
        plan: &Plan,
        level: usize,
        index: u64,
        bytes: &[u8],
        stored: &mut [u8],
        device: &mut D,
    ) -> Result<(), Self::Why>
        requires here { HasBlock plan.now level index }
        requires size { length bytes.now ≡ plan.now.settings.hash_block }
        requires stored { length stored.old ≡ plan.now.settings.hash_block }
        ensures told { D.tells device.old → D.tells device.new }
        ensures count { Counts (failed_at (side_by is_failure) TheDevice result) (D.failures device.old) (D.failures device.new) }
        ensures keeps { D.tells device.old → (start : List ℕ) → keeps start (D.content device.old)
            → keeps start (D.content device.new) }
        ensures leaves { D.tells device.old → (blocks : List (List ℕ)) (done : List BlockIndex) (start : List ℕ)
            → plan.now.blocks ≡ length blocks → bytes.now ≡ tree_block plan.now.settings blocks level index
            → leaves plan.now blocks done start (D.content device.old)
            → IfOk result (λ _. leaves plan.now blocks (done ++ block_index level index ∷ []) start (D.content device.new)) }
        ensures stops { D.tells device.old → (blocks : List (List ℕ)) (done : List BlockIndex) (start : List ℕ)
            → plan.now.blocks ≡ length blocks → bytes.now ≡ tree_block plan.now.settings blocks level index
            → leaves plan.now blocks done start (D.content device.old)
            → IfErr result (λ why. stops plan.now blocks done (stop_at level index why) start (D.content device.new)) };
}
