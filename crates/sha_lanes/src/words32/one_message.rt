//! The digest of one message alone. Schedules don't depend on the hash value: those of eight consecutive blocks are made
//! side by side, one in each lane, and then the rounds of one block after another.
ghost use Rattle.std.specs.Prelude.{◌≡◌, ℕ, ◌+◌, ◌<◌, ◌≤◌, ◌++◌, List, length};
ghost use Rattle.sha2.specs.Sha256 as S256;
ghost use Rattle.sha_lanes.specs.Words32.{block_count};

use crate::rows::{GROUP, rest_in};
use crate::words32::by_instructions::hash_one;
use crate::words32::hash_values::{INITIAL_HASH_224, INITIAL_HASH_256, hash_bytes, leftmost_224};
use crate::words32::padding::{block_count, padded_row};
use crate::words32::plain_rounds::{compress, set_words};
use sha_instructions::instructions::has_instructions;
use std::simd::prelude::*;

/// Takes `count` blocks of a padded message, from block `k` on, into the hash value. What stood in `w` and `kw` doesn't
/// count.
fn take_blocks(
    state: &mut [u32; 8],
    w: &mut [u32x8; 64],
    kw: &mut [[u32; 8]; 64],
    first: &[u8],
    second: &[u8],
    third: &[u8],
    k: usize,
    count: usize,
)
    requires some { 0 < count }
    requires most { count ≤ 8 }
    requires inside { k + count ≤ block_count (length first.now + length second.now + length third.now) }
    ensures { (h : List ℕ) → state.old ≡ S256.hash_after h (S256.padded_message (first.now ++ second.now ++ third.now)) k
        → state.new ≡ S256.hash_after h (S256.padded_message (first.now ++ second.now ++ third.now)) (k + count) }
{
    let at = k as u128 * 64;
    match rest_in(first, second, third, at, GROUP) {
        Some(rest) => set_words(kw, w, &rest[..GROUP]),
        None => set_words(kw, w, &padded_row::<GROUP>(first, second, third, at)),
    }
    for j in 0..count {
        compress(state, kw, j);
    }
}

/// Takes `state` from the initial hash value to that of a message.
fn hash(state: &mut [u32; 8], first: &[u8], second: &[u8], third: &[u8])
    ensures { state.new ≡ S256.final_hash state.old (first.now ++ second.now ++ third.now) }
{
    let mut w = [u32x8::splat(0); 64];
    let mut kw = [[0; 8]; 64];
    let n = first.len() as u128 + second.len() as u128 + third.len() as u128;
    let blocks = block_count(n);
    let groups = blocks / 8;
    for group in 0..groups {
        take_blocks(state, &mut w, &mut kw, first, second, third, 8 * group, 8);
    }
    if blocks % 8 > 0 {
        take_blocks(
            state,
            &mut w,
            &mut kw,
            first,
            second,
            third,
            8 * groups,
            blocks % 8,
        );
    }
}

/// The hash value of a message, from an initial hash value. Not inlined, so that no caller's frame has its vectors
/// beside those of another function.
#[inline(never)]
fn hash_value(initial: &[u32; 8], first: &[u8], second: &[u8], third: &[u8]) -> [u32; 8]
    ensures { result ≡ S256.final_hash initial.now (first.now ++ second.now ++ third.now) }
{
    if has_instructions() {
        return hash_one(initial, first, second, third);
    }
    let mut state = *initial;
    hash(&mut state, first, second, third);
    state
}

/// The SHA-256 digest (6.2) of one message, which is in three pieces.
pub fn sha256_alone(first: &[u8], second: &[u8], third: &[u8]) -> [u8; 32]
    ensures { result ≡ S256.sha256 (first.now ++ second.now ++ third.now) }
{
    hash_bytes(&hash_value(&INITIAL_HASH_256, first, second, third))
}

/// The SHA-224 digest (6.3) of one message, which is in three pieces.
pub fn sha224_alone(first: &[u8], second: &[u8], third: &[u8]) -> [u8; 28]
    ensures { result ≡ S256.sha224 (first.now ++ second.now ++ third.now) }
{
    leftmost_224(&hash_bytes(&hash_value(&INITIAL_HASH_224, first, second, third)))
}
