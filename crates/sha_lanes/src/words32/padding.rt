//! The padded messages (FIPS 180-4, 5.1.1), block by block.
//!
//! `before`, a part and `after` may together be longer than a `usize` can count, because two of them may be the same
//! slice: offsets in a message have 128 bits.
ghost use Rattle.std.specs.Prelude.{◌≡◌, ℕ, ◌+◌, ◌*◌, ◌<◌, ◌≤◌, ◌^◌, ◌++◌, length, take, drop};
ghost use Rattle.sha2.specs.Sha256.{padded_message};
ghost use Rattle.sha_lanes.specs.Lanes.{message_of, HoldsFrom};
ghost use Rattle.sha_lanes.specs.Words32.{BeginsSchedule, block_count, padded_row};

use crate::rows::{places_of, put};
use crate::words32::schedule::{load, load_same};
use std::simd::prelude::*;

/// How many blocks a message of `n` bytes fills with its padding.
pub(crate) fn block_count(n: u128) -> usize
    requires { n < 2 ^ 66 }
    ensures { result ≡ block_count n }
{
    ((n + 8) / 64 + 1) as usize
}

/// The `N` bytes from byte `at` on of a padded message: its pieces, the bit 1 and seven zeros, zeros, and its length
/// in bits. After the end there are zeros.
#[inline(always)]
pub(crate) fn padded_row<const N: usize>(
    before: &[u8],
    part: &[u8],
    after: &[u8],
    at: u128,
) -> [u8; N]
    requires { at < 2 ^ 127 }
    ensures { HoldsFrom result (padded_message (before.now ++ part.now ++ after.now)) at }
{
    let start = before.len() as u128;
    let end = start + part.len() as u128;
    let n = end + after.len() as u128;
    let bits = (n * 8 % 0x1_0000_0000_0000_0000) as u64;
    let mut row = [0u8; N];
    put(&mut row, at, before, 0);
    put(&mut row, at, part, start);
    put(&mut row, at, after, end);
    put(&mut row, at, &[0x80], n);
    put(
        &mut row,
        at,
        &bits.to_be_bytes(),
        64 * block_count(n) as u128 - 8,
    );
    row
}

/// The 64 bytes from byte `at` on of each padded message, one row after the other. A lane without a message has a row
/// too.
fn padded_rows(before: &[u8], parts: &[u8], len: usize, after: &[u8], at: u128) -> [u8; 512]
    requires some { len ≤ length parts.now }
    requires inside { at + 64 ≤ 64 * block_count (length before.now + len + length after.now) }
    ensures { (j : ℕ) → j < 8 → j * len + len ≤ length parts.now
        → take 64 (drop (j * 64) result) ≡ padded_row (message_of before.now parts.now len after.now j) at }
{
    let places = places_of(parts.len(), len);
    let mut rows = [0u8; 512];
    for j in 0..8 {
        let part = &parts[places[j]..places[j] + len];
        rows[j * 64..j * 64 + 64].copy_from_slice(&padded_row::<64>(before, part, after, at));
    }
    rows
}

/// Sets the first 16 words of the schedule to those of block `k` of each padded message. A block inside the parts is
/// loaded from where it lies, and one that has no byte of them, as the last one often has none, is built once for all
/// lanes.
#[inline(always)]
pub(crate) fn load_block<const N: usize>(
    w: &mut [u32x8; N],
    before: &[u8],
    parts: &[u8],
    len: usize,
    after: &[u8],
    k: usize,
)
    requires room { 16 ≤ N }
    requires some { len ≤ length parts.now }
    requires inside { k < block_count (length before.now + len + length after.now) }
    ensures { (j : ℕ) → j < 8 → j * len + len ≤ length parts.now
        → BeginsSchedule w.new j (padded_row (message_of before.now parts.now len after.now j) (k * 64)) }
{
    let at = k as u128 * 64;
    let start = before.len() as u128;
    let end = start + len as u128;
    if start <= at && at + 64 <= end {
        load(w, parts, len, (at - start) as usize);
    } else if at + 64 <= start || end <= at {
        load_same(w, &padded_row::<64>(before, &parts[..len], after, at));
    } else {
        load(w, &padded_rows(before, parts, len, after, at), 64, 0);
    }
}
