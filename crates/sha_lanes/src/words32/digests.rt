//! The digests (FIPS 180-4, 6.2 and 6.3).
ghost use Rattle.std.specs.Prelude.{◌≡◌, ℕ, ◌+◌, ◌*◌, ◌<◌, ◌≤◌, length};
ghost use Rattle.sha2.specs.Sha256 as S256;
ghost use Rattle.sha_lanes.specs.Lanes.{lane, message_of, row};

use crate::words32::by_instructions::hash_each;
use crate::words32::hash_values::{
    INITIAL_HASH_224, INITIAL_HASH_256, hash_bytes, leftmost_224, words_of,
};
use crate::words32::padding::{block_count, load_block};
use crate::words32::rounds::compress;
use sha_instructions::instructions::has_instructions;
use std::simd::prelude::*;

/// Words that are the same in each lane.
#[inline(always)]
fn in_each_lane(words: &[u32; 8]) -> [u32x8; 8]
    ensures { (j : ℕ) → j < 8 → lane result j ≡ words.now }
{
    [
        u32x8::splat(words[0]),
        u32x8::splat(words[1]),
        u32x8::splat(words[2]),
        u32x8::splat(words[3]),
        u32x8::splat(words[4]),
        u32x8::splat(words[5]),
        u32x8::splat(words[6]),
        u32x8::splat(words[7]),
    ]
}

/// Takes `state` from the initial hash value to that of each message. In lanes without a message it is meaningless.
fn hash(state: &mut [u32x8; 8], before: &[u8], parts: &[u8], len: usize, after: &[u8])
    requires { len ≤ length parts.now }
    ensures { (j : ℕ) → j < 8 → j * len + len ≤ length parts.now
        → lane state.new j ≡ S256.final_hash (lane state.old j) (message_of before.now parts.now len after.now j) }
{
    let mut w = [u32x8::splat(0); 64];
    let n = before.len() as u128 + len as u128 + after.len() as u128;
    for k in 0..block_count(n) {
        load_block(&mut w, before, parts, len, after, k);
        compress(state, &mut w);
    }
}

/// The hash values of `count` messages, one to eight, from an initial hash value. Not inlined, so that no caller's frame
/// has its vectors beside those of another function.
#[inline(never)]
fn hash_values(
    initial: &[u32; 8],
    before: &[u8],
    parts: &[u8],
    len: usize,
    count: usize,
    after: &[u8],
) -> [[u32; 8]; 8]
    requires whole { length parts.now ≡ count * len }
    requires some { 0 < count }
    requires most { count ≤ 8 }
    ensures { (j : ℕ) → j < count
        → row result j ≡ S256.final_hash initial.now (message_of before.now parts.now len after.now j) }
{
    if has_instructions() {
        return hash_each(initial, before, parts, len, count, after);
    }
    let mut state = in_each_lane(initial);
    hash(&mut state, before, parts, len, after);
    [
        words_of(&state, 0),
        words_of(&state, 1),
        words_of(&state, 2),
        words_of(&state, 3),
        words_of(&state, 4),
        words_of(&state, 5),
        words_of(&state, 6),
        words_of(&state, 7),
    ]
}

/// The SHA-256 digests of `count` messages of one length, one to eight. Message `j` is `before`, then part `j` of
/// `parts`, which have `len` bytes each, then `after`. The digests after those of the messages are meaningless. Without SHA
/// instructions any number of messages takes the same time.
pub fn sha256(before: &[u8], parts: &[u8], len: usize, count: usize, after: &[u8]) -> [[u8; 32]; 8]
    requires whole { length parts.now ≡ count * len }
    requires some { 0 < count }
    requires most { count ≤ 8 }
    ensures { (j : ℕ) → j < count → row result j ≡ S256.sha256 (message_of before.now parts.now len after.now j) }
{
    let [a, b, c, d, e, f, g, h] = hash_values(&INITIAL_HASH_256, before, parts, len, count, after);
    [
        hash_bytes(&a),
        hash_bytes(&b),
        hash_bytes(&c),
        hash_bytes(&d),
        hash_bytes(&e),
        hash_bytes(&f),
        hash_bytes(&g),
        hash_bytes(&h),
    ]
}

/// The SHA-224 digests of `count` messages of one length, one to eight. Message `j` is `before`, then part `j` of
/// `parts`, which have `len` bytes each, then `after`. The digests after those of the messages are meaningless. Without SHA
/// instructions any number of messages takes the same time.
pub fn sha224(before: &[u8], parts: &[u8], len: usize, count: usize, after: &[u8]) -> [[u8; 28]; 8]
    requires whole { length parts.now ≡ count * len }
    requires some { 0 < count }
    requires most { count ≤ 8 }
    ensures { (j : ℕ) → j < count → row result j ≡ S256.sha224 (message_of before.now parts.now len after.now j) }
{
    let [a, b, c, d, e, f, g, h] = hash_values(&INITIAL_HASH_224, before, parts, len, count, after);
    [
        leftmost_224(&hash_bytes(&a)),
        leftmost_224(&hash_bytes(&b)),
        leftmost_224(&hash_bytes(&c)),
        leftmost_224(&hash_bytes(&d)),
        leftmost_224(&hash_bytes(&e)),
        leftmost_224(&hash_bytes(&f)),
        leftmost_224(&hash_bytes(&g)),
        leftmost_224(&hash_bytes(&h)),
    ]
}
