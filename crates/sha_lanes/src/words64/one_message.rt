//! The digest of one message alone. Schedules don't depend on the hash value: those of four consecutive blocks are made
//! side by side, one in each lane, and then the rounds of one block after another.
ghost use Rattle.std.specs.Prelude.{◌≡◌, ℕ, ◌+◌, ◌<◌, ◌≤◌, ◌++◌, List, length};
ghost use Rattle.sha2.specs.Sha512 as S512;
ghost use Rattle.sha_lanes.specs.Words64.{block_count};

use crate::rows::{GROUP, rest_in};
use crate::words64::by_instructions::hash_one;
use crate::words64::hash_values::{INITIAL_HASH_384, INITIAL_HASH_512, hash_bytes, leftmost_384};
use crate::words64::padding::{block_count, padded_row};
use crate::words64::plain_rounds::{compress, set_words};
use sha_instructions::instructions::has_instructions_of_sha_512;
use std::simd::prelude::*;

/// Takes `count` blocks of a padded message, from block `k` on, into the hash value. What stood in `w` and `kw` doesn't
/// count.
fn take_blocks(
    state: &mut [u64; 8],
    w: &mut [u64x4; 80],
    kw: &mut [[u64; 4]; 80],
    first: &[u8],
    second: &[u8],
    third: &[u8],
    k: usize,
    count: usize,
)
    requires some { 0 < count }
    requires most { count ≤ 4 }
    requires inside { k + count ≤ block_count (length first.now + length second.now + length third.now) }
    ensures { (h : List ℕ) → state.old ≡ S512.hash_after h (S512.padded_message (first.now ++ second.now ++ third.now)) k
        → state.new ≡ S512.hash_after h (S512.padded_message (first.now ++ second.now ++ third.now)) (k + count) }
{
    let at = k as u128 * 128;
    match rest_in(first, second, third, at, GROUP) {
        Some(rest) => set_words(kw, w, &rest[..GROUP]),
        None => set_words(kw, w, &padded_row::<GROUP>(first, second, third, at)),
    }
    for j in 0..count {
        compress(state, kw, j);
    }
}

/// Takes `state` from the initial hash value to that of a message.
fn hash(state: &mut [u64; 8], first: &[u8], second: &[u8], third: &[u8])
    ensures { state.new ≡ S512.final_hash state.old (first.now ++ second.now ++ third.now) }
{
    let mut w = [u64x4::splat(0); 80];
    let mut kw = [[0; 4]; 80];
    let n = first.len() as u128 + second.len() as u128 + third.len() as u128;
    let blocks = block_count(n);
    let groups = blocks / 4;
    for group in 0..groups {
        take_blocks(state, &mut w, &mut kw, first, second, third, 4 * group, 4);
    }
    if blocks % 4 > 0 {
        take_blocks(
            state,
            &mut w,
            &mut kw,
            first,
            second,
            third,
            4 * groups,
            blocks % 4,
        );
    }
}

/// The hash value of a message, from an initial hash value. Not inlined, so that no caller's frame has its vectors
/// beside those of another function.
#[inline(never)]
fn hash_value(initial: &[u64; 8], first: &[u8], second: &[u8], third: &[u8]) -> [u64; 8]
    ensures { result ≡ S512.final_hash initial.now (first.now ++ second.now ++ third.now) }
{
    if has_instructions_of_sha_512() {
        return hash_one(initial, first, second, third);
    }
    let mut state = *initial;
    hash(&mut state, first, second, third);
    state
}

/// The SHA-512 digest (6.4) of one message, which is in three pieces.
pub fn sha512_alone(first: &[u8], second: &[u8], third: &[u8]) -> [u8; 64]
    ensures { result ≡ S512.sha512 (first.now ++ second.now ++ third.now) }
{
    hash_bytes(&hash_value(&INITIAL_HASH_512, first, second, third))
}

/// The SHA-384 digest (6.5) of one message, which is in three pieces.
pub fn sha384_alone(first: &[u8], second: &[u8], third: &[u8]) -> [u8; 48]
    ensures { result ≡ S512.sha384 (first.now ++ second.now ++ third.now) }
{
    leftmost_384(&hash_bytes(&hash_value(&INITIAL_HASH_384, first, second, third)))
}
