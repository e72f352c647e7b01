//! The digest of one message alone. Schedules don't depend on the hash value: those of eight consecutive blocks are made
//! side by side, one in each lane, and then the rounds of one block after another.
ghost use Rattle.std.specs.Prelude.{◌≡◌, ◌+◌, ◌<◌, ◌≤◌, ◌++◌, length};
ghost use Rattle.sha1.specs.Sha1 as S1;
ghost use Rattle.sha_lanes.specs.Sha1.{final_hash};
ghost use Rattle.sha_lanes.specs.Words32.{block_count};

use crate::rows::{GROUP, rest_in};
use crate::sha_1::by_instructions::hash_one;
use crate::sha_1::digests::{INITIAL_HASH, hash_bytes};
use crate::sha_1::plain_rounds::{compress, set_words};
use crate::words32::padding::{block_count, padded_row};
use sha_instructions::instructions::has_instructions;
use std::simd::prelude::*;

/// Takes `count` blocks of a padded message, from block `k` on, into the hash value. What stood in `w` and `kw` doesn't
/// count.
fn take_blocks(
    state: &mut [u32; 5],
    w: &mut [u32x8; 80],
    kw: &mut [[u32; 8]; 80],
    first: &[u8],
    second: &[u8],
    third: &[u8],
    k: usize,
    count: usize,
)
    requires some { 0 < count }
    requires most { count ≤ 8 }
    requires inside { k + count ≤ block_count (length first.now + length second.now + length third.now) }
    ensures { state.old ≡ S1.hash_after (S1.padded_message (first.now ++ second.now ++ third.now)) k
        → state.new ≡ S1.hash_after (S1.padded_message (first.now ++ second.now ++ third.now)) (k + count) }
{
    let at = k as u128 * 64;
    match rest_in(first, second, third, at, GROUP) {
        Some(rest) => set_words(kw, w, &rest[..GROUP]),
        None => set_words(kw, w, &padded_row::<GROUP>(first, second, third, at)),
    }
    for j in 0..count {
        compress(state, kw, j);
    }
}

/// The hash value of a message. Not inlined, so that no caller's frame has its vectors beside those of another function.
#[inline(never)]
fn hash(first: &[u8], second: &[u8], third: &[u8]) -> [u32; 5]
    ensures { result ≡ final_hash (first.now ++ second.now ++ third.now) }
{
    if has_instructions() {
        return hash_one(first, second, third);
    }
    let mut state = INITIAL_HASH;
    let mut w = [u32x8::splat(0); 80];
    let mut kw = [[0; 8]; 80];
    let n = first.len() as u128 + second.len() as u128 + third.len() as u128;
    let blocks = block_count(n);
    let groups = blocks / 8;
    for group in 0..groups {
        take_blocks(
            &mut state,
            &mut w,
            &mut kw,
            first,
            second,
            third,
            8 * group,
            8,
        );
    }
    if blocks % 8 > 0 {
        take_blocks(
            &mut state,
            &mut w,
            &mut kw,
            first,
            second,
            third,
            8 * groups,
            blocks % 8,
        );
    }
    state
}

/// The SHA-1 digest (6.1) of one message, which is in three pieces.
pub fn sha1_alone(first: &[u8], second: &[u8], third: &[u8]) -> [u8; 20]
    ensures { result ≡ S1.sha1 (first.now ++ second.now ++ third.now) }
{
    hash_bytes(&hash(first, second, third))
}
