//! The digests (FIPS 180-4, 6.4 and 6.5).
ghost use Rattle.std.specs.Prelude.{◌≡◌, ℕ, ◌+◌, ◌*◌, ◌<◌, ◌≤◌, length};
ghost use Rattle.sha2.specs.Sha512 as S512;
ghost use Rattle.sha_lanes.specs.Lanes.{lane, message_of, row};

use crate::words64::by_instructions::hash_each;
use crate::words64::hash_values::{
    INITIAL_HASH_384, INITIAL_HASH_512, hash_bytes, leftmost_384, words_of,
};
use crate::words64::padding::{block_count, load_block};
use crate::words64::rounds::compress;
use sha_instructions::instructions::has_instructions_of_sha_512;
use std::simd::prelude::*;

/// Words that are the same in each lane.
#[inline(always)]
fn in_each_lane(words: &[u64; 8]) -> [u64x4; 8]
    ensures { (j : ℕ) → j < 4 → lane result j ≡ words.now }
{
    [
        u64x4::splat(words[0]),
        u64x4::splat(words[1]),
        u64x4::splat(words[2]),
        u64x4::splat(words[3]),
        u64x4::splat(words[4]),
        u64x4::splat(words[5]),
        u64x4::splat(words[6]),
        u64x4::splat(words[7]),
    ]
}

/// Takes `state` from the initial hash value to that of each message. In lanes without a message it is meaningless.
fn hash(state: &mut [u64x4; 8], before: &[u8], parts: &[u8], len: usize, after: &[u8])
    requires { len ≤ length parts.now }
    ensures { (j : ℕ) → j < 4 → j * len + len ≤ length parts.now
        → lane state.new j ≡ S512.final_hash (lane state.old j) (message_of before.now parts.now len after.now j) }
{
    let mut w = [u64x4::splat(0); 80];
    let n = before.len() as u128 + len as u128 + after.len() as u128;
    for k in 0..block_count(n) {
        load_block(&mut w, before, parts, len, after, k);
        compress(state, &mut w);
    }
}

/// The hash values of the first four messages, or of as many as there are, from an initial hash value. Not inlined, so
/// that no caller's frame has its vectors beside those of another function.
#[inline(never)]
fn four_hash_values(
    initial: &[u64; 8],
    before: &[u8],
    parts: &[u8],
    len: usize,
    after: &[u8],
) -> [[u64; 8]; 4]
    requires { len ≤ length parts.now }
    ensures { (j : ℕ) → j < 4 → j * len + len ≤ length parts.now
        → row result j ≡ S512.final_hash initial.now (message_of before.now parts.now len after.now j) }
{
    let mut state = in_each_lane(initial);
    hash(&mut state, before, parts, len, after);
    [
        words_of(&state, 0),
        words_of(&state, 1),
        words_of(&state, 2),
        words_of(&state, 3),
    ]
}

/// The hash values of `count` messages, one to eight, from an initial hash value. For four or fewer there is no second
/// pass.
fn hash_values(
    initial: &[u64; 8],
    before: &[u8],
    parts: &[u8],
    len: usize,
    count: usize,
    after: &[u8],
) -> [[u64; 8]; 8]
    requires whole { length parts.now ≡ count * len }
    requires some { 0 < count }
    requires most { count ≤ 8 }
    ensures { (j : ℕ) → j < count
        → row result j ≡ S512.final_hash initial.now (message_of before.now parts.now len after.now j) }
{
    if has_instructions_of_sha_512() {
        return hash_each(initial, before, parts, len, count, after);
    }
    let [a, b, c, d] = four_hash_values(initial, before, parts, len, after);
    if count <= 4 {
        return [a, b, c, d, a, b, c, d];
    }
    let [e, f, g, h] = four_hash_values(initial, before, &parts[4 * len..], len, after);
    [a, b, c, d, e, f, g, h]
}

/// The SHA-512 digests of `count` messages of one length, one to eight. Message `j` is `before`, then part `j` of
/// `parts`, which have `len` bytes each, then `after`. The digests after those of the messages are meaningless. Without SHA
/// instructions five to eight messages take twice as long as one to four.
pub fn sha512(before: &[u8], parts: &[u8], len: usize, count: usize, after: &[u8]) -> [[u8; 64]; 8]
    requires whole { length parts.now ≡ count * len }
    requires some { 0 < count }
    requires most { count ≤ 8 }
    ensures { (j : ℕ) → j < count → row result j ≡ S512.sha512 (message_of before.now parts.now len after.now j) }
{
    let [a, b, c, d, e, f, g, h] = hash_values(&INITIAL_HASH_512, before, parts, len, count, after);
    [
        hash_bytes(&a),
        hash_bytes(&b),
        hash_bytes(&c),
        hash_bytes(&d),
        hash_bytes(&e),
        hash_bytes(&f),
        hash_bytes(&g),
        hash_bytes(&h),
    ]
}

/// The SHA-384 digests of `count` messages of one length, one to eight. Message `j` is `before`, then part `j` of
/// `parts`, which have `len` bytes each, then `after`. The digests after those of the messages are meaningless. Without SHA
/// instructions five to eight messages take twice as long as one to four.
pub fn sha384(before: &[u8], parts: &[u8], len: usize, count: usize, after: &[u8]) -> [[u8; 48]; 8]
    requires whole { length parts.now ≡ count * len }
    requires some { 0 < count }
    requires most { count ≤ 8 }
    ensures { (j : ℕ) → j < count → row result j ≡ S512.sha384 (message_of before.now parts.now len after.now j) }
{
    let [a, b, c, d, e, f, g, h] = hash_values(&INITIAL_HASH_384, before, parts, len, count, after);
    [
        leftmost_384(&hash_bytes(&a)),
        leftmost_384(&hash_bytes(&b)),
        leftmost_384(&hash_bytes(&c)),
        leftmost_384(&hash_bytes(&d)),
        leftmost_384(&hash_bytes(&e)),
        leftmost_384(&hash_bytes(&f)),
        leftmost_384(&hash_bytes(&g)),
        leftmost_384(&hash_bytes(&h)),
    ]
}
