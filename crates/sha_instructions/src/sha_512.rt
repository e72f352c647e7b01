//! SHA-512's blocks (FIPS 180-4, 6.4.2) by the SHA instructions of 64-bit ARM.
ghost use Rattle.std.specs.Prelude.{◌≡◌, ℕ, ◌+◌, ◌*◌, ◌≤◌, List, length};
ghost use Rattle.sha2.specs.Sha512 as S512;
ghost use Rattle.sha_instructions.specs.Sha512Vectors.{Has, IsAt, add, between, two, two_at};

use crate::instructions::{sha512h, sha512h2, sha512su0, sha512su1};
use std::simd::prelude::*;

/// K 0, …, K 79 (4.2.3).
const K: [u64; 80] = [
    0x428a2f98d728ae22,
    0x7137449123ef65cd,
    0xb5c0fbcfec4d3b2f,
    0xe9b5dba58189dbbc,
    0x3956c25bf348b538,
    0x59f111f1b605d019,
    0x923f82a4af194f9b,
    0xab1c5ed5da6d8118,
    0xd807aa98a3030242,
    0x12835b0145706fbe,
    0x243185be4ee4b28c,
    0x550c7dc3d5ffb4e2,
    0x72be5d74f27b896f,
    0x80deb1fe3b1696b1,
    0x9bdc06a725c71235,
    0xc19bf174cf692694,
    0xe49b69c19ef14ad2,
    0xefbe4786384f25e3,
    0x0fc19dc68b8cd5b5,
    0x240ca1cc77ac9c65,
    0x2de92c6f592b0275,
    0x4a7484aa6ea6e483,
    0x5cb0a9dcbd41fbd4,
    0x76f988da831153b5,
    0x983e5152ee66dfab,
    0xa831c66d2db43210,
    0xb00327c898fb213f,
    0xbf597fc7beef0ee4,
    0xc6e00bf33da88fc2,
    0xd5a79147930aa725,
    0x06ca6351e003826f,
    0x142929670a0e6e70,
    0x27b70a8546d22ffc,
    0x2e1b21385c26c926,
    0x4d2c6dfc5ac42aed,
    0x53380d139d95b3df,
    0x650a73548baf63de,
    0x766a0abb3c77b2a8,
    0x81c2c92e47edaee6,
    0x92722c851482353b,
    0xa2bfe8a14cf10364,
    0xa81a664bbc423001,
    0xc24b8b70d0f89791,
    0xc76c51a30654be30,
    0xd192e819d6ef5218,
    0xd69906245565a910,
    0xf40e35855771202a,
    0x106aa07032bbd1b8,
    0x19a4c116b8d2d0c8,
    0x1e376c085141ab53,
    0x2748774cdf8eeb99,
    0x34b0bcb5e19b48a8,
    0x391c0cb3c5c95a63,
    0x4ed8aa4ae3418acb,
    0x5b9cca4f7763e373,
    0x682e6ff3d6b2b8a3,
    0x748f82ee5defb2fc,
    0x78a5636f43172f60,
    0x84c87814a1f0ab72,
    0x8cc702081a6439ec,
    0x90befffa23631e28,
    0xa4506cebde82bde9,
    0xbef9a3f7b2c67915,
    0xc67178f2e372532b,
    0xca273eceea26619c,
    0xd186b8c721c0c207,
    0xeada7dd6cde0eb1e,
    0xf57d4f7fee6ed178,
    0x06f067aa72176fba,
    0x0a637dc5a2c898a6,
    0x113f9804bef90dae,
    0x1b710b35131c471b,
    0x28db77f523047d84,
    0x32caab7b40c72493,
    0x3c9ebe0a15c9bebc,
    0x431d67c49c100d4c,
    0x4cc5d4becb3e42b6,
    0x597f299cfc657e2a,
    0x5fcb6fab3ad6faec,
    0x6c44198c4a475817,
];

/// The working variables, or a hash value.
#[derive(Drop)]
struct Variables {
    ab: u64x2,
    cd: u64x2,
    ef: u64x2,
    gh: u64x2,
}

/// The working variables before a round, and the words of sixteen rounds from it on.
#[derive(Drop)]
struct Working {
    v: Variables,
    w0: u64x2,
    w1: u64x2,
    w2: u64x2,
    w3: u64x2,
    w4: u64x2,
    w5: u64x2,
    w6: u64x2,
    w7: u64x2,
}

/// The word at byte `i`.
#[inline(always)]
fn word_at(bytes: &[u8], i: usize) -> u64
    requires { i + 8 ≤ length bytes.now }
    ensures { result ≡ S512.word_at bytes.now i }
{
    u64::from_be_bytes([
        bytes[i],
        bytes[i + 1],
        bytes[i + 2],
        bytes[i + 3],
        bytes[i + 4],
        bytes[i + 5],
        bytes[i + 6],
        bytes[i + 7],
    ])
}

/// The two words from byte `i` on.
#[inline(always)]
fn two_at(bytes: &[u8], i: usize) -> u64x2
    requires { i + 16 ≤ length bytes.now }
    ensures { result ≡ two_at bytes.now i }
{
    u64x2::from_array([word_at(bytes, i), word_at(bytes, i + 8)])
}

/// Lane by lane, the sum.
#[inline(always)]
fn add(x: u64x2, y: u64x2) -> u64x2
    ensures { result ≡ add x y }
{
    x + y
}

/// The last lane of one vector, and the first of the other.
#[inline(always)]
fn between(x: u64x2, y: u64x2) -> u64x2
    ensures { result ≡ between x y }
{
    let [_, x1] = x.to_array();
    let [y0, _] = y.to_array();
    u64x2::from_array([x1, y0])
}

/// The constants of two rounds, that of the second in lane 0.
#[inline(always)]
fn constants(t: usize) -> u64x2
    requires { t + 2 ≤ 80 }
    ensures { result ≡ two S512.round_constants t }
{
    u64x2::from_array([K[t], K[t + 1]])
}

/// The hash value, in vectors.
#[inline(always)]
fn pack(state: &[u64; 8]) -> Variables
    ensures { Has result state.now }
{
    let [a, b, c, d, e, f, g, h] = *state;
    Variables {
        ab: u64x2::from_array([a, b]),
        cd: u64x2::from_array([c, d]),
        ef: u64x2::from_array([e, f]),
        gh: u64x2::from_array([g, h]),
    }
}

/// The hash value, from its vectors.
#[inline(always)]
fn unpack(v: Variables) -> [u64; 8]
    ensures { (s : List ℕ) → length s ≡ 8 → Has v s → result ≡ s }
{
    let [a, b] = v.ab.to_array();
    let [c, d] = v.cd.to_array();
    let [e, f] = v.ef.to_array();
    let [g, h] = v.gh.to_array();
    [a, b, c, d, e, f, g, h]
}

/// Two rounds, from round `t` on. G, H, E and F after them are E, F, C and D before them, with T 1 added to the last two.
#[inline(always)]
fn two_rounds(v: Variables, words: u64x2, t: usize) -> Variables
    requires { t + 2 ≤ 80 }
    ensures { (s w : List ℕ) → Has v (S512.rounds s w t) → words ≡ two w t → Has result (S512.rounds s w (t + 2)) }
{
    let wk = add(words, constants(t));
    let sums = add(v.gh, between(wk, wk));
    let temps = sha512h(sums, between(v.ef, v.gh), between(v.cd, v.ef));
    Variables {
        ab: sha512h2(temps, v.cd, v.ab),
        cd: v.ab,
        ef: add(v.cd, temps),
        gh: v.ef,
    }
}

/// Two words of the schedule, from some of the sixteen before them.
#[inline(always)]
fn next_two(w0: u64x2, w1: u64x2, w4: u64x2, w5: u64x2, w7: u64x2) -> u64x2
    ensures { (b : List ℕ) (t : ℕ) → t + 18 ≤ 80
        → w0 ≡ two (S512.schedule b 64) t → w1 ≡ two (S512.schedule b 64) (t + 2)
        → w4 ≡ two (S512.schedule b 64) (t + 8) → w5 ≡ two (S512.schedule b 64) (t + 10)
        → w7 ≡ two (S512.schedule b 64) (t + 14) → result ≡ two (S512.schedule b 64) (t + 16) }
{
    sha512su1(sha512su0(w0, w1), w7, between(w4, w5))
}

/// The working variables before the first round, and the first sixteen words of a block.
#[inline(always)]
fn begin(v: Variables, block: &[u8]) -> Working
    requires { length block.now ≡ 128 }
    ensures { (s : List ℕ) → Has v s → IsAt result s (S512.schedule block.now 64) 0 }
{
    Working {
        v,
        w0: two_at(block, 0),
        w1: two_at(block, 16),
        w2: two_at(block, 32),
        w3: two_at(block, 48),
        w4: two_at(block, 64),
        w5: two_at(block, 80),
        w6: two_at(block, 96),
        w7: two_at(block, 112),
    }
}

/// Two rounds, and two words of the schedule.
#[inline(always)]
fn step(x: Working, t: usize) -> Working
    requires { t + 18 ≤ 80 }
    ensures { (s b : List ℕ) → IsAt x s (S512.schedule b 64) t → IsAt result s (S512.schedule b 64) (t + 2) }
{
    let next = next_two(x.w0, x.w1, x.w4, x.w5, x.w7);
    Working {
        v: two_rounds(x.v, x.w0, t),
        w0: x.w1,
        w1: x.w2,
        w2: x.w3,
        w3: x.w4,
        w4: x.w5,
        w5: x.w6,
        w6: x.w7,
        w7: next,
    }
}

/// Sixteen rounds, and sixteen words of the schedule.
#[inline(always)]
fn sixteen_rounds(x: Working, t: usize) -> Working
    requires { t + 32 ≤ 80 }
    ensures { (s b : List ℕ) → IsAt x s (S512.schedule b 64) t → IsAt result s (S512.schedule b 64) (t + 16) }
{
    let x = step(x, t);
    let x = step(x, t + 2);
    let x = step(x, t + 4);
    let x = step(x, t + 6);
    let x = step(x, t + 8);
    let x = step(x, t + 10);
    let x = step(x, t + 12);
    step(x, t + 14)
}

/// The last sixteen rounds.
#[inline(always)]
fn last_rounds(x: Working) -> Variables
    ensures { (s w : List ℕ) → IsAt x s w 64 → Has result (S512.rounds s w 80) }
{
    let v = two_rounds(x.v, x.w0, 64);
    let v = two_rounds(v, x.w1, 66);
    let v = two_rounds(v, x.w2, 68);
    let v = two_rounds(v, x.w3, 70);
    let v = two_rounds(v, x.w4, 72);
    let v = two_rounds(v, x.w5, 74);
    let v = two_rounds(v, x.w6, 76);
    two_rounds(v, x.w7, 78)
}

/// The hash value and the working variables after all rounds, added (step 4).
#[inline(always)]
fn sum(ab: u64x2, cd: u64x2, ef: u64x2, gh: u64x2, v: Variables) -> Variables
    ensures { (h b : List ℕ) → ab ≡ two h 0 → cd ≡ two h 2 → ef ≡ two h 4 → gh ≡ two h 6
        → Has v (S512.rounds h (S512.schedule b 64) 80) → Has result (S512.compress h b) }
{
    Variables {
        ab: add(ab, v.ab),
        cd: add(cd, v.cd),
        ef: add(ef, v.ef),
        gh: add(gh, v.gh),
    }
}

/// The hash value after one more block.
#[inline(always)]
fn compress(h: Variables, block: &[u8]) -> Variables
    requires { length block.now ≡ 128 }
    ensures { (s : List ℕ) → Has h s → Has result (S512.compress s block.now) }
{
    let (ab, cd, ef, gh) = (h.ab, h.cd, h.ef, h.gh);
    let x = begin(h, block);
    let x = sixteen_rounds(x, 0);
    let x = sixteen_rounds(x, 16);
    let x = sixteen_rounds(x, 32);
    let x = sixteen_rounds(x, 48);
    sum(ab, cd, ef, gh, last_rounds(x))
}

/// Takes `count` blocks into the hash value, where `has_instructions_of_sha_512` is true.
#[inline(never)]
pub fn take_blocks(state: &mut [u64; 8], blocks: &[u8], count: usize)
    requires { 128 * count ≤ length blocks.now }
    ensures { state.new ≡ S512.hash_after state.old blocks.now count }
{
    let mut h = pack(state);
    for k in 0..count {
        h = compress(h, &blocks[128 * k..128 * k + 128]);
    }
    *state = unpack(h);
}
