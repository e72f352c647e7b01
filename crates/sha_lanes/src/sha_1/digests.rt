//! The digests (FIPS 180-4, 6.1).
ghost use Rattle.std.specs.Prelude.{◌≡◌, ℕ, ◌+◌, ◌*◌, ◌<◌, ◌≤◌, length};
ghost use Rattle.sha1.specs.Sha1 as S1;
ghost use Rattle.sha_lanes.specs.Lanes.{lane, message_of, row};
ghost use Rattle.sha_lanes.specs.Sha1.{final_hash};

use crate::sha_1::by_instructions::hash_each;
use crate::sha_1::rounds::compress;
use crate::words32::hash_values::{put_bytes, words_of};
use crate::words32::padding::{block_count, load_block};
use sha_instructions::instructions::has_instructions;
use std::simd::prelude::*;

/// The initial hash value (5.3.1).
pub(crate) const INITIAL_HASH: [u32; 5] = [
    0x67452301, 0xefcdab89, 0x98badcfe, 0x10325476, 0xc3d2e1f0,
];

/// The initial hash value in each lane.
#[inline(always)]
fn initial_hash() -> [u32x8; 5]
    ensures { (j : ℕ) → j < 8 → lane result j ≡ S1.initial_hash }
{
    [
        u32x8::splat(INITIAL_HASH[0]),
        u32x8::splat(INITIAL_HASH[1]),
        u32x8::splat(INITIAL_HASH[2]),
        u32x8::splat(INITIAL_HASH[3]),
        u32x8::splat(INITIAL_HASH[4]),
    ]
}

/// The hash value of each message. In lanes without a message it is meaningless.
fn hash(before: &[u8], parts: &[u8], len: usize, after: &[u8]) -> [u32x8; 5]
    requires { len ≤ length parts.now }
    ensures { (j : ℕ) → j < 8 → j * len + len ≤ length parts.now
        → lane result j ≡ final_hash (message_of before.now parts.now len after.now j) }
{
    let mut state = initial_hash();
    let mut w = [u32x8::splat(0); 80];
    let n = before.len() as u128 + len as u128 + after.len() as u128;
    for k in 0..block_count(n) {
        load_block(&mut w, before, parts, len, after, k);
        compress(&mut state, &mut w);
    }
    state
}

/// The bytes of a hash value.
pub(crate) fn hash_bytes(words: &[u32; 5]) -> [u8; 20]
    ensures { result ≡ S1.digest_bytes words.now 5 }
{
    let mut bytes = [0u8; 20];
    put_bytes(&mut bytes, words);
    bytes
}

/// The hash values of `count` messages, one to eight. Not inlined, so that no caller's frame has its vectors beside those
/// of another function.
#[inline(never)]
fn hash_values(before: &[u8], parts: &[u8], len: usize, count: usize, after: &[u8]) -> [[u32; 5]; 8]
    requires whole { length parts.now ≡ count * len }
    requires some { 0 < count }
    requires most { count ≤ 8 }
    ensures { (j : ℕ) → j < count → row result j ≡ final_hash (message_of before.now parts.now len after.now j) }
{
    if has_instructions() {
        return hash_each(before, parts, len, count, after);
    }
    let state = hash(before, parts, len, after);
    [
        words_of(&state, 0),
        words_of(&state, 1),
        words_of(&state, 2),
        words_of(&state, 3),
        words_of(&state, 4),
        words_of(&state, 5),
        words_of(&state, 6),
        words_of(&state, 7),
    ]
}

/// The SHA-1 digests of `count` messages of one length, one to eight. Message `j` is `before`, then part `j` of
/// `parts`, which have `len` bytes each, then `after`. The digests after those of the messages are meaningless. Without SHA
/// instructions any number of messages takes the same time.
pub fn sha1(before: &[u8], parts: &[u8], len: usize, count: usize, after: &[u8]) -> [[u8; 20]; 8]
    requires whole { length parts.now ≡ count * len }
    requires some { 0 < count }
    requires most { count ≤ 8 }
    ensures { (j : ℕ) → j < count → row result j ≡ S1.sha1 (message_of before.now parts.now len after.now j) }
{
    let [a, b, c, d, e, f, g, h] = hash_values(before, parts, len, count, after);
    [
        hash_bytes(&a),
        hash_bytes(&b),
        hash_bytes(&c),
        hash_bytes(&d),
        hash_bytes(&e),
        hash_bytes(&f),
        hash_bytes(&g),
        hash_bytes(&h),
    ]
}
