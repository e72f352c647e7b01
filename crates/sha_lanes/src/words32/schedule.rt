//! A block's words (FIPS 180-4, 5.2.1) and the message schedule (6.2.2, step 1).
ghost use Rattle.std.specs.Prelude.{◌≡◌, ℕ, ◌+◌, ◌*◌, ◌<◌, ◌≤◌, List, length, take, drop, slice_index};
ghost use Rattle.sha2.specs.Sha256 as S256;
ghost use Rattle.sha_lanes.specs.Lanes.{HasLanes, lane};
ghost use Rattle.sha_lanes.specs.Words32.{BeginsSchedule};

use crate::rows::places_of;
use crate::words32::functions::{small_sigma0, small_sigma1};
use std::simd::prelude::*;

/// The word at byte `i`.
#[inline(always)]
fn word_at(bytes: &[u8], i: usize) -> u32
    requires { i + 4 ≤ length bytes.now }
    ensures { result ≡ S256.word_at bytes.now i }
{
    u32::from_be_bytes([bytes[i], bytes[i + 1], bytes[i + 2], bytes[i + 3]])
}

/// The word at byte `i` of each lane's part.
#[inline(always)]
fn words_at(parts: &[u8], places: &[usize; 8], i: usize) -> u32x8
    requires { (j : ℕ) → j < 8 → slice_index places.now j + i + 4 ≤ length parts.now }
    ensures { HasLanes 8 result (λ j. S256.word_at parts.now (slice_index places.now j + i)) }
{
    u32x8::from_array([
        word_at(parts, places[0] + i),
        word_at(parts, places[1] + i),
        word_at(parts, places[2] + i),
        word_at(parts, places[3] + i),
        word_at(parts, places[4] + i),
        word_at(parts, places[5] + i),
        word_at(parts, places[6] + i),
        word_at(parts, places[7] + i),
    ])
}

/// Sets the first 16 words of the schedule to those of the block at byte `from` of each part. In lanes without a
/// message they are meaningless. The schedule has 64 words, or 80 for SHA-1.
#[inline(always)]
pub(crate) fn load<const N: usize>(w: &mut [u32x8; N], parts: &[u8], len: usize, from: usize)
    requires room { 16 ≤ N }
    requires some { len ≤ length parts.now }
    requires inside { from + 64 ≤ len }
    ensures { (j : ℕ) → j < 8 → j * len + len ≤ length parts.now
        → BeginsSchedule w.new j (take 64 (drop (j * len + from) parts.now)) }
{
    let places = places_of(parts.len(), len);
    for t in 0..16 {
        w[t] = words_at(parts, &places, from + 4 * t);
    }
}

/// Sets the first 16 words of the schedule to those of a block that is the same in each lane.
#[inline(always)]
pub(crate) fn load_same<const N: usize>(w: &mut [u32x8; N], block: &[u8; 64])
    requires room { 16 ≤ N }
    ensures { (j : ℕ) → j < 8 → BeginsSchedule w.new j block.now }
{
    for t in 0..16 {
        w[t] = u32x8::splat(word_at(block, 4 * t));
    }
}

/// W t from the words before it: of t - 2, t - 7, t - 15 and t - 16.
#[inline(always)]
fn next_word(w2: u32x8, w7: u32x8, w15: u32x8, w16: u32x8) -> u32x8
    ensures { HasLanes 8 result (λ j. S256.add32 (S256.add32 (S256.add32
        (S256.small_sigma1 (slice_index w2 j)) (slice_index w7 j)) (S256.small_sigma0 (slice_index w15 j))) (slice_index w16 j)) }
{
    small_sigma1(w2) + w7 + small_sigma0(w15) + w16
}

/// Makes the whole schedule from its first 16 words, two words a turn of the loop. Both stay at hand for the next turn,
/// since each word is made of the one two before it.
#[inline(always)]
pub(crate) fn schedule(w: &mut [u32x8; 64])
    ensures { (j : ℕ) → j < 8 → (b : List ℕ) → BeginsSchedule w.old j b → lane w.new j ≡ S256.schedule b 48 }
{
    let mut even = w[14];
    let mut odd = w[15];
    for turn in 0..24 {
        let t = 16 + 2 * turn;
        let shared = w[t - 15];
        even = next_word(even, w[t - 7], shared, w[t - 16]);
        odd = next_word(odd, w[t - 6], w[t - 14], shared);
        w[t] = even;
        w[t + 1] = odd;
    }
}
