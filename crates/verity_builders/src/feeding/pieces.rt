//! Bytes of a piece come to the window.
ghost use Rattle.std.specs.Prelude.{◌≡◌, ℕ, ◌+◌, ◌*◌, ◌/◌, ◌<◌, ◌≤◌, ◌++◌, List, length, take, true, false};
ghost use Rattle.verity_plan.specs.Plans.{IsPlan};
ghost use Rattle.verity_plan.specs.Settings.{TreeSettingsFields, fan};
ghost use Rattle.verity_blocks.specs.ClosingOrder.{blocks_before, closed_after};
ghost use Rattle.verity_blocks.specs.Steps.Feeding.{HasFed, IsSettled};
ghost use Rattle.verity_blocks.specs.Windows.{window_blocks, window_length};

use verity_blocks::window_length;
use verity_plan::Plan;

/// Takes bytes to the window, of which there are `at` in it: as many as the piece has, up to the window's end.
fn fill_window(window: &mut [u8], at: usize, piece: &[u8]) -> usize
    requires at { at < length window.old }
    requires some { 0 < length piece.now }
    ensures some { 0 < result }
    ensures most { result ≤ length piece.now }
    ensures within { at + result ≤ length window.old }
    ensures all { at + length piece.now ≤ length window.old → result ≡ length piece.now }
    ensures holds { take (at + result) window.new ≡ take at window.old ++ take result piece.now }
{
    let count = (window.len() - at).min(piece.len());
    window[at..at + count].copy_from_slice(&piece[..count]);
    count
}

/// Takes bytes of a piece when all windows before them that are full have been added: how many.
pub(crate) fn take_bytes(plan: &Plan, window: &mut [u8], count: u64, piece: &[u8]) -> usize
    requires planned { IsPlan plan.now }
    requires window { length window.old ≡ window_length plan.now.settings }
    requires some { 0 < length piece.now }
    requires most { count + length piece.now ≤ plan.now.wanted }
    ensures takes { (0 < result) × (result ≤ length piece.now) }
    ensures none_closes { closed_after (fan plan.now.settings) plan.now.blocks
        (blocks_before plan.now.settings (count + result))
        ≡ closed_after (fan plan.now.settings) plan.now.blocks
        (count / window_length plan.now.settings * window_blocks plan.now.settings) }
    ensures fed { (levels : ℕ) (fed opened : List ℕ) → length fed ≡ count
        → IsSettled plan.now.settings levels fed opened window.old
        → HasFed plan.now.settings levels (fed ++ take result piece.now) opened window.new }
{
    let at = count % window_length(plan.settings()) as u64;
    fill_window(window, at as usize, piece)
}

/// Up to so many bytes are too many for no tree.
const SMALL_FILE: u64 = 1 << 40;

/// Takes a piece, when so many bytes were fed, if some of them are in the window and it has room for the piece, and no tree
/// is too small for so many: whether it was taken. That needs no plan.
pub(crate) fn take_short_piece(window: &mut [u8], count: u64, piece: &[u8]) -> bool
    ensures some { result ≡ true → 0 < length piece.now }
    ensures small { result ≡ true → count + length piece.now ≤ 1099511627776 }
    ensures refused { result ≡ false → window.new ≡ window.old }
    ensures fed { result ≡ true → (s : TreeSettingsFields) (levels : ℕ) (fed opened : List ℕ)
        → length window.old ≡ window_length s → length fed ≡ count
        → HasFed s levels fed opened window.old → HasFed s levels (fed ++ piece.now) opened window.new }
{
    let wide = window.len();
    // It always is one: tested, shifts find the place in the window, faster than a division.
    if !wide.is_power_of_two() || piece.is_empty() {
        return false;
    }
    if count.saturating_add(piece.len() as u64) > SMALL_FILE {
        return false;
    }
    let power = wide.ilog2();
    let at = (count - (count >> power << power)) as usize;
    if at == 0 || piece.len() > wide - at {
        return false;
    }
    fill_window(window, at, piece);
    true
}
