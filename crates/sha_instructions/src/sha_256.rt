//! SHA-256's blocks (FIPS 180-4, 6.2.2) by SHA instructions: what is the same for all processors.
ghost use Rattle.std.specs.Prelude.{◌≡◌, ℕ, ◌+◌, ◌*◌, ◌≤◌, List, length};
ghost use Rattle.sha2.specs.Sha256 as S256;
ghost use Rattle.sha_instructions.specs.Sha256Vectors.{Has, IsAt, first_half, second_half};
ghost use Rattle.sha_instructions.specs.Vectors.{four};

mod arm;
mod x86;

use crate::instructions::is_for_arm;
use crate::words::{add, four_at};
use std::simd::prelude::*;

/// The working variables, or a hash value: on ARM A, B, C and D, and E, F, G and H; on x86 F, E, B and A, and H, G, D
/// and C.
#[derive(Drop)]
struct Variables {
    first: u32x4,
    second: u32x4,
}

/// The working variables before a round, and the words of sixteen rounds from it on.
#[derive(Drop)]
struct Working {
    v: Variables,
    w0: u32x4,
    w1: u32x4,
    w2: u32x4,
    w3: u32x4,
}

/// The hash value, in vectors.
#[inline(always)]
fn pack(for_arm: bool, state: &[u32; 8]) -> Variables
    ensures { Has for_arm result state.now }
{
    let [a, b, c, d, e, f, g, h] = *state;
    if for_arm {
        Variables {
            first: u32x4::from_array([a, b, c, d]),
            second: u32x4::from_array([e, f, g, h]),
        }
    } else {
        Variables {
            first: u32x4::from_array([f, e, b, a]),
            second: u32x4::from_array([h, g, d, c]),
        }
    }
}

/// The hash value, from its vectors.
#[inline(always)]
fn unpack(for_arm: bool, v: Variables) -> [u32; 8]
    ensures { (s : List ℕ) → length s ≡ 8 → Has for_arm v s → result ≡ s }
{
    if for_arm {
        let [a, b, c, d] = v.first.to_array();
        let [e, f, g, h] = v.second.to_array();
        [a, b, c, d, e, f, g, h]
    } else {
        let [f, e, b, a] = v.first.to_array();
        let [h, g, d, c] = v.second.to_array();
        [a, b, c, d, e, f, g, h]
    }
}

/// Four rounds, from round `t` on.
#[inline(always)]
fn four_rounds(for_arm: bool, v: Variables, words: u32x4, t: usize) -> Variables
    requires { t + 4 ≤ 64 }
    ensures { (s w : List ℕ) → Has for_arm v (S256.rounds s w t) → words ≡ four w t
        → Has for_arm result (S256.rounds s w (t + 4)) }
{
    if for_arm {
        arm::four_rounds(v, words, t)
    } else {
        x86::four_rounds(v, words, t)
    }
}

/// Four words of the schedule, from the sixteen before them.
#[inline(always)]
fn next_four(for_arm: bool, w0: u32x4, w1: u32x4, w2: u32x4, w3: u32x4) -> u32x4
    ensures { (b : List ℕ) (t : ℕ) → t + 20 ≤ 64
        → w0 ≡ four (S256.schedule b 48) t → w1 ≡ four (S256.schedule b 48) (t + 4)
        → w2 ≡ four (S256.schedule b 48) (t + 8) → w3 ≡ four (S256.schedule b 48) (t + 12)
        → result ≡ four (S256.schedule b 48) (t + 16) }
{
    if for_arm {
        arm::next_four(w0, w1, w2, w3)
    } else {
        x86::next_four(w0, w1, w2, w3)
    }
}

/// The working variables before the first round, and the first sixteen words of a block.
#[inline(always)]
fn begin(for_arm: bool, v: Variables, block: &[u8]) -> Working
    requires { length block.now ≡ 64 }
    ensures { (s : List ℕ) → Has for_arm v s → IsAt for_arm result s (S256.schedule block.now 48) 0 }
{
    Working {
        v,
        w0: four_at(block, 0),
        w1: four_at(block, 16),
        w2: four_at(block, 32),
        w3: four_at(block, 48),
    }
}

/// Four rounds, and four words of the schedule.
#[inline(always)]
fn step(for_arm: bool, x: Working, t: usize) -> Working
    requires { t + 20 ≤ 64 }
    ensures { (s b : List ℕ) → IsAt for_arm x s (S256.schedule b 48) t
        → IsAt for_arm result s (S256.schedule b 48) (t + 4) }
{
    let next = next_four(for_arm, x.w0, x.w1, x.w2, x.w3);
    Working {
        v: four_rounds(for_arm, x.v, x.w0, t),
        w0: x.w1,
        w1: x.w2,
        w2: x.w3,
        w3: next,
    }
}

/// Sixteen rounds, and sixteen words of the schedule.
#[inline(always)]
fn sixteen_rounds(for_arm: bool, x: Working, t: usize) -> Working
    requires { t + 32 ≤ 64 }
    ensures { (s b : List ℕ) → IsAt for_arm x s (S256.schedule b 48) t
        → IsAt for_arm result s (S256.schedule b 48) (t + 16) }
{
    let x = step(for_arm, x, t);
    let x = step(for_arm, x, t + 4);
    let x = step(for_arm, x, t + 8);
    step(for_arm, x, t + 12)
}

/// The same of two messages, whose steps take turns, so that neither waits for its own.
#[inline(always)]
fn sixteen_rounds_of_two(for_arm: bool, x: Working, y: Working, t: usize) -> (Working, Working)
    requires { t + 32 ≤ 64 }
    ensures of_first { (s b : List ℕ) → IsAt for_arm x s (S256.schedule b 48) t
        → IsAt for_arm result.0 s (S256.schedule b 48) (t + 16) }
    ensures of_second { (s b : List ℕ) → IsAt for_arm y s (S256.schedule b 48) t
        → IsAt for_arm result.1 s (S256.schedule b 48) (t + 16) }
{
    let x = step(for_arm, x, t);
    let y = step(for_arm, y, t);
    let x = step(for_arm, x, t + 4);
    let y = step(for_arm, y, t + 4);
    let x = step(for_arm, x, t + 8);
    let y = step(for_arm, y, t + 8);
    let x = step(for_arm, x, t + 12);
    let y = step(for_arm, y, t + 12);
    (x, y)
}

/// The hash value and the working variables after all rounds, added (step 4).
#[inline(always)]
fn sum(for_arm: bool, first: u32x4, second: u32x4, v: Variables) -> Variables
    ensures { (h b : List ℕ) → first ≡ first_half for_arm h → second ≡ second_half for_arm h
        → Has for_arm v (S256.rounds h (S256.schedule b 48) 64) → Has for_arm result (S256.compress h b) }
{
    Variables {
        first: add(first, v.first),
        second: add(second, v.second),
    }
}

/// The hash value after one more block.
#[inline(always)]
fn compress(for_arm: bool, h: Variables, block: &[u8]) -> Variables
    requires { length block.now ≡ 64 }
    ensures { (s : List ℕ) → Has for_arm h s → Has for_arm result (S256.compress s block.now) }
{
    let (first, second) = (h.first, h.second);
    let x = begin(for_arm, h, block);
    let x = sixteen_rounds(for_arm, x, 0);
    let x = sixteen_rounds(for_arm, x, 16);
    let x = sixteen_rounds(for_arm, x, 32);
    let v = four_rounds(for_arm, x.v, x.w0, 48);
    let v = four_rounds(for_arm, v, x.w1, 52);
    let v = four_rounds(for_arm, v, x.w2, 56);
    let v = four_rounds(for_arm, v, x.w3, 60);
    sum(for_arm, first, second, v)
}

/// The hash values of two messages after one more block of each.
#[inline(always)]
fn compress_two(
    for_arm: bool,
    h1: Variables,
    block1: &[u8],
    h2: Variables,
    block2: &[u8],
) -> (Variables, Variables)
    requires long1 { length block1.now ≡ 64 }
    requires long2 { length block2.now ≡ 64 }
    ensures of_first { (s : List ℕ) → Has for_arm h1 s → Has for_arm result.0 (S256.compress s block1.now) }
    ensures of_second { (s : List ℕ) → Has for_arm h2 s → Has for_arm result.1 (S256.compress s block2.now) }
{
    let (first1, second1) = (h1.first, h1.second);
    let (first2, second2) = (h2.first, h2.second);
    let x = begin(for_arm, h1, block1);
    let y = begin(for_arm, h2, block2);
    let (x, y) = sixteen_rounds_of_two(for_arm, x, y, 0);
    let (x, y) = sixteen_rounds_of_two(for_arm, x, y, 16);
    let (x, y) = sixteen_rounds_of_two(for_arm, x, y, 32);
    let v = four_rounds(for_arm, x.v, x.w0, 48);
    let u = four_rounds(for_arm, y.v, y.w0, 48);
    let v = four_rounds(for_arm, v, x.w1, 52);
    let u = four_rounds(for_arm, u, y.w1, 52);
    let v = four_rounds(for_arm, v, x.w2, 56);
    let u = four_rounds(for_arm, u, y.w2, 56);
    let v = four_rounds(for_arm, v, x.w3, 60);
    let u = four_rounds(for_arm, u, y.w3, 60);
    (
        sum(for_arm, first1, second1, v),
        sum(for_arm, first2, second2, u),
    )
}

/// Takes `count` blocks into the hash value, where `has_instructions` is true.
#[inline(never)]
pub fn take_blocks(state: &mut [u32; 8], blocks: &[u8], count: usize)
    requires { 64 * count ≤ length blocks.now }
    ensures { state.new ≡ S256.hash_after state.old blocks.now count }
{
    let for_arm = is_for_arm();
    let mut h = pack(for_arm, state);
    for k in 0..count {
        h = compress(for_arm, h, &blocks[64 * k..64 * k + 64]);
    }
    *state = unpack(for_arm, h);
}

/// Takes `count` blocks of each of two messages into their hash values, side by side, where `has_instructions` is true.
#[inline(never)]
pub fn take_blocks_of_two(
    state1: &mut [u32; 8],
    blocks1: &[u8],
    state2: &mut [u32; 8],
    blocks2: &[u8],
    count: usize,
)
    requires long1 { 64 * count ≤ length blocks1.now }
    requires long2 { 64 * count ≤ length blocks2.now }
    ensures of_first { state1.new ≡ S256.hash_after state1.old blocks1.now count }
    ensures of_second { state2.new ≡ S256.hash_after state2.old blocks2.now count }
{
    let for_arm = is_for_arm();
    let mut h1 = pack(for_arm, state1);
    let mut h2 = pack(for_arm, state2);
    for k in 0..count {
        (h1, h2) = compress_two(
            for_arm,
            h1,
            &blocks1[64 * k..64 * k + 64],
            h2,
            &blocks2[64 * k..64 * k + 64],
        );
    }
    *state1 = unpack(for_arm, h1);
    *state2 = unpack(for_arm, h2);
}
