//! The window: the data blocks in which bytes are collected, and which are hashed side by side.
ghost use Rattle.std.specs.Prelude.{◌≡◌, ℕ, ◌-◌, ◌*◌, ◌<◌, ◌≤◌, List, length, take};
ghost use Rattle.verity_plan.specs.PlanCounts.{level_count_of};
ghost use Rattle.verity_plan.specs.Plans.{IsPlan};
ghost use Rattle.verity_plan.specs.Settings.{IsValid, digest_len};
ghost use Rattle.verity_blocks.specs.Steps.Feeding.{HasCome, HasFed, IsWindowPlace, windows_before};
ghost use Rattle.verity_blocks.specs.Windows.{window_blocks, window_length};

use crate::known_zeros::KnownZeros;
use crate::open_blocks::add_batch;
use crate::side_by_side::ROWS;
use verity_hash::Digest;
use verity_plan::{Plan, TreeSettings};

/// The window has no more bytes than the largest data block.
const MOST_BYTES: u32 = 524_288;

/// The number of data blocks of the window.
fn window_blocks(settings: &TreeSettings) -> usize
    ensures value { result ≡ window_blocks settings.now }
    ensures some { 0 < result }
    ensures most { result ≤ 8 }
    ensures room { result * settings.now.data_block ≤ 524288 }
{
    // A data block's size is a power of two.
    let room = MOST_BYTES >> settings.data_block().ilog2();
    ROWS.min(room as usize).min(settings.fan())
}

/// The length of the window, in bytes.
pub fn window_length(settings: &TreeSettings) -> usize
    ensures value { result ≡ window_length settings.now }
    ensures some { 0 < result }
    ensures most { result ≤ 524288 }
    ensures valid { IsValid settings.now }
{
    window_blocks(settings) * settings.data_block() as usize
}

/// Where the last of some bytes is in its window.
#[derive(Clone, Copy)]
pub(crate) struct WindowPlace {
    /// The first data block of the window.
    pub first: u64,
    /// How many data blocks of the window are before the one that the byte is in.
    pub rows: usize,
    /// How many bytes of the window there are.
    pub bytes: usize,
}

/// Where the last of so many bytes is in its window.
pub(crate) fn window_place(plan: &Plan, count: u64) -> WindowPlace
    requires planned { IsPlan plan.now }
    requires some { 0 < count }
    requires most { count ≤ plan.now.wanted }
    ensures { IsWindowPlace plan.now count result }
{
    let settings = plan.settings();
    let i = (count - 1) / plan.data_block() as u64;
    let rows = i % window_blocks(settings) as u64;
    WindowPlace {
        first: i - rows,
        rows: rows as usize,
        bytes: ((count - 1) % window_length(settings) as u64 + 1) as usize,
    }
}

/// Adds the digests of the window's data blocks, when so many bytes were fed, but that of the last one, which is the
/// result. What is left of that block is filled with zeros; the bytes stay, for more that come.
pub(crate) fn add_window<'a>(
    plan: &'a Plan,
    opened: &mut [u8],
    window: &mut [u8],
    count: u64,
    zeros: &mut KnownZeros<'a>,
) -> Digest
    requires planned { IsPlan plan.now }
    requires opened { level_count_of plan.now * plan.now.settings.hash_block ≤ length opened.old }
    requires window { length window.old ≡ window_length plan.now.settings }
    requires some { 0 < count }
    requires most { count ≤ plan.now.wanted }
    ensures size { length result ≡ digest_len plan.now.settings }
    ensures adds { (levels : ℕ) (fed : List ℕ) → level_count_of plan.now ≤ levels
        → levels * plan.now.settings.hash_block ≤ length opened.old → length fed ≡ count
        → HasFed plan.now.settings levels fed opened.old window.old → HasCome plan.now levels fed opened.new result }
    ensures stays { take (count - windows_before plan.now.settings count * window_length plan.now.settings) window.new
        ≡ take (count - windows_before plan.now.settings count * window_length plan.now.settings) window.old }
{
    let place = window_place(plan, count);
    let blocks = place.rows + 1;
    let end = blocks * plan.data_block();
    window[place.bytes..end].fill(0);
    add_batch(plan, opened, place.first, &window[..end], blocks, zeros)
}
