//! SHA-1's blocks (FIPS 180-4, 6.1.2) by SHA instructions: what is the same for all processors.
ghost use Rattle.std.specs.Prelude.{◌≡◌, ℕ, ◌+◌, ◌*◌, ◌%◌, ◌≤◌, List, length, slice_index};
ghost use Rattle.sha1.specs.Sha1 as S1;
ghost use Rattle.sha_instructions.specs.Sha1Vectors.{Has, HasE, IsAt, Keeps, first_of, hash_from, in_vector};
ghost use Rattle.sha_instructions.specs.Vectors.{four, four_at};

mod arm;
mod x86;

use crate::instructions::is_for_arm;
use crate::words::{add, four_at};
use std::simd::prelude::*;

/// The working variables, or a hash value: A, B, C and D, on ARM from lane 0 up and on x86 from lane 3 down; and in the
/// first of these lanes E. Within a block, x86 has in its place what gives E when it is rotated by 30 bits.
#[derive(Drop)]
struct Variables {
    abcd: u32x4,
    e: u32x4,
}

/// The working variables before a round, and the words of sixteen rounds from it on.
#[derive(Drop)]
struct Working {
    v: Variables,
    w0: u32x4,
    w1: u32x4,
    w2: u32x4,
    w3: u32x4,
}

/// The hash value, in vectors.
#[inline(always)]
fn pack(for_arm: bool, state: &[u32; 5]) -> Variables
    ensures { Keeps for_arm result state.now }
{
    let [a, b, c, d, e] = *state;
    if for_arm {
        Variables {
            abcd: u32x4::from_array([a, b, c, d]),
            e: u32x4::from_array([e, 0, 0, 0]),
        }
    } else {
        Variables {
            abcd: u32x4::from_array([d, c, b, a]),
            e: u32x4::from_array([0, 0, 0, e]),
        }
    }
}

/// The hash value, from its vectors.
#[inline(always)]
fn unpack(for_arm: bool, v: Variables) -> [u32; 5]
    ensures { (h : List ℕ) → length h ≡ 5 → Keeps for_arm v h → result ≡ h }
{
    if for_arm {
        let [a, b, c, d] = v.abcd.to_array();
        let [e, _, _, _] = v.e.to_array();
        [a, b, c, d, e]
    } else {
        let [d, c, b, a] = v.abcd.to_array();
        let [_, _, _, e] = v.e.to_array();
        [a, b, c, d, e]
    }
}

/// The four words from byte `i` on.
#[inline(always)]
fn words_at(for_arm: bool, block: &[u8], i: usize) -> u32x4
    requires { i + 16 ≤ length block.now }
    ensures { result ≡ in_vector for_arm (four_at block.now i) }
{
    let words = four_at(block, i);
    if for_arm {
        words
    } else {
        let [w0, w1, w2, w3] = words.to_array();
        u32x4::from_array([w3, w2, w1, w0])
    }
}

/// Four rounds, from round `t` on.
#[inline(always)]
fn four_rounds(for_arm: bool, v: Variables, words: u32x4, t: usize) -> Variables
    requires last { t + 4 ≤ 80 }
    requires whole { t % 4 ≡ 0 }
    ensures { (s w : List ℕ) → Has for_arm v (S1.rounds s w t) → words ≡ in_vector for_arm (four w t)
        → Has for_arm result (S1.rounds s w (t + 4)) }
{
    if for_arm {
        arm::four_rounds(v, words, t)
    } else {
        x86::four_rounds(v, words, t)
    }
}

/// Four words of the schedule, from the sixteen before them.
#[inline(always)]
fn next_four(for_arm: bool, w0: u32x4, w1: u32x4, w2: u32x4, w3: u32x4) -> u32x4
    ensures { (b : List ℕ) (t : ℕ) → t + 20 ≤ 80
        → w0 ≡ in_vector for_arm (four (S1.schedule b 64) t) → w1 ≡ in_vector for_arm (four (S1.schedule b 64) (t + 4))
        → w2 ≡ in_vector for_arm (four (S1.schedule b 64) (t + 8)) → w3 ≡ in_vector for_arm (four (S1.schedule b 64) (t + 12))
        → result ≡ in_vector for_arm (four (S1.schedule b 64) (t + 16)) }
{
    if for_arm {
        arm::next_four(w0, w1, w2, w3)
    } else {
        x86::next_four(w0, w1, w2, w3)
    }
}

/// E of a hash value, as the working variables have it.
#[inline(always)]
fn begin_e(for_arm: bool, e: u32x4) -> u32x4
    ensures { (h : List ℕ) → first_of for_arm e ≡ slice_index h 4 → HasE for_arm result h }
{
    if for_arm { e } else { x86::before_rotation(e) }
}

/// E of a hash value and of the working variables, added.
#[inline(always)]
fn add_e(for_arm: bool, e: u32x4, other: u32x4) -> u32x4
    ensures { (h s : List ℕ) → first_of for_arm e ≡ slice_index h 4 → HasE for_arm other s
        → first_of for_arm result ≡ S1.add32 (slice_index h 4) (slice_index s 4) }
{
    if for_arm {
        add(e, other)
    } else {
        x86::add_rotated(e, other)
    }
}

/// The working variables before the first round, and the first sixteen words of a block.
#[inline(always)]
fn begin(for_arm: bool, abcd: u32x4, e: u32x4, block: &[u8]) -> Working
    requires { length block.now ≡ 64 }
    ensures { (h : List ℕ) → abcd ≡ in_vector for_arm h → first_of for_arm e ≡ slice_index h 4
        → IsAt for_arm result h (S1.schedule block.now 64) 0 }
{
    Working {
        v: Variables {
            abcd,
            e: begin_e(for_arm, e),
        },
        w0: words_at(for_arm, block, 0),
        w1: words_at(for_arm, block, 16),
        w2: words_at(for_arm, block, 32),
        w3: words_at(for_arm, block, 48),
    }
}

/// Four rounds, and four words of the schedule.
#[inline(always)]
fn step(for_arm: bool, x: Working, t: usize) -> Working
    requires last { t + 20 ≤ 80 }
    requires whole { t % 4 ≡ 0 }
    ensures { (s b : List ℕ) → IsAt for_arm x s (S1.schedule b 64) t
        → IsAt for_arm result s (S1.schedule b 64) (t + 4) }
{
    let next = next_four(for_arm, x.w0, x.w1, x.w2, x.w3);
    Working {
        v: four_rounds(for_arm, x.v, x.w0, t),
        w0: x.w1,
        w1: x.w2,
        w2: x.w3,
        w3: next,
    }
}

/// Sixteen rounds, and sixteen words of the schedule.
#[inline(always)]
fn sixteen_rounds(for_arm: bool, x: Working, t: usize) -> Working
    requires last { t + 32 ≤ 80 }
    requires whole { t % 4 ≡ 0 }
    ensures { (s b : List ℕ) → IsAt for_arm x s (S1.schedule b 64) t
        → IsAt for_arm result s (S1.schedule b 64) (t + 16) }
{
    let x = step(for_arm, x, t);
    let x = step(for_arm, x, t + 4);
    let x = step(for_arm, x, t + 8);
    step(for_arm, x, t + 12)
}

/// The same of two messages, whose steps take turns, so that neither waits for its own.
#[inline(always)]
fn sixteen_rounds_of_two(for_arm: bool, x: Working, y: Working, t: usize) -> (Working, Working)
    requires last { t + 32 ≤ 80 }
    requires whole { t % 4 ≡ 0 }
    ensures of_first { (s b : List ℕ) → IsAt for_arm x s (S1.schedule b 64) t
        → IsAt for_arm result.0 s (S1.schedule b 64) (t + 16) }
    ensures of_second { (s b : List ℕ) → IsAt for_arm y s (S1.schedule b 64) t
        → IsAt for_arm result.1 s (S1.schedule b 64) (t + 16) }
{
    let x = step(for_arm, x, t);
    let y = step(for_arm, y, t);
    let x = step(for_arm, x, t + 4);
    let y = step(for_arm, y, t + 4);
    let x = step(for_arm, x, t + 8);
    let y = step(for_arm, y, t + 8);
    let x = step(for_arm, x, t + 12);
    let y = step(for_arm, y, t + 12);
    (x, y)
}

/// The hash value and the working variables after all rounds, added (step 4).
#[inline(always)]
fn sum(for_arm: bool, abcd: u32x4, e: u32x4, v: Variables) -> Variables
    ensures { (h b : List ℕ) → abcd ≡ in_vector for_arm h → first_of for_arm e ≡ slice_index h 4
        → Has for_arm v (S1.rounds h (S1.schedule b 64) 80) → Keeps for_arm result (S1.compress h b) }
{
    Variables {
        abcd: add(abcd, v.abcd),
        e: add_e(for_arm, e, v.e),
    }
}

/// The hash value after one more block.
#[inline(always)]
fn compress(for_arm: bool, h: Variables, block: &[u8]) -> Variables
    requires { length block.now ≡ 64 }
    ensures { (s : List ℕ) → Keeps for_arm h s → Keeps for_arm result (S1.compress s block.now) }
{
    let (abcd, e) = (h.abcd, h.e);
    let x = begin(for_arm, abcd, e, block);
    let x = sixteen_rounds(for_arm, x, 0);
    let x = sixteen_rounds(for_arm, x, 16);
    let x = sixteen_rounds(for_arm, x, 32);
    let x = sixteen_rounds(for_arm, x, 48);
    let v = four_rounds(for_arm, x.v, x.w0, 64);
    let v = four_rounds(for_arm, v, x.w1, 68);
    let v = four_rounds(for_arm, v, x.w2, 72);
    let v = four_rounds(for_arm, v, x.w3, 76);
    sum(for_arm, abcd, e, v)
}

/// The hash values of two messages after one more block of each.
#[inline(always)]
fn compress_two(
    for_arm: bool,
    h1: Variables,
    block1: &[u8],
    h2: Variables,
    block2: &[u8],
) -> (Variables, Variables)
    requires long1 { length block1.now ≡ 64 }
    requires long2 { length block2.now ≡ 64 }
    ensures of_first { (s : List ℕ) → Keeps for_arm h1 s → Keeps for_arm result.0 (S1.compress s block1.now) }
    ensures of_second { (s : List ℕ) → Keeps for_arm h2 s → Keeps for_arm result.1 (S1.compress s block2.now) }
{
    let (abcd1, e1) = (h1.abcd, h1.e);
    let (abcd2, e2) = (h2.abcd, h2.e);
    let x = begin(for_arm, abcd1, e1, block1);
    let y = begin(for_arm, abcd2, e2, block2);
    let (x, y) = sixteen_rounds_of_two(for_arm, x, y, 0);
    let (x, y) = sixteen_rounds_of_two(for_arm, x, y, 16);
    let (x, y) = sixteen_rounds_of_two(for_arm, x, y, 32);
    let (x, y) = sixteen_rounds_of_two(for_arm, x, y, 48);
    let v = four_rounds(for_arm, x.v, x.w0, 64);
    let u = four_rounds(for_arm, y.v, y.w0, 64);
    let v = four_rounds(for_arm, v, x.w1, 68);
    let u = four_rounds(for_arm, u, y.w1, 68);
    let v = four_rounds(for_arm, v, x.w2, 72);
    let u = four_rounds(for_arm, u, y.w2, 72);
    let v = four_rounds(for_arm, v, x.w3, 76);
    let u = four_rounds(for_arm, u, y.w3, 76);
    (sum(for_arm, abcd1, e1, v), sum(for_arm, abcd2, e2, u))
}

/// Takes `count` blocks into the hash value, where `has_instructions` is true.
#[inline(never)]
pub fn take_blocks(state: &mut [u32; 5], blocks: &[u8], count: usize)
    requires { 64 * count ≤ length blocks.now }
    ensures { state.new ≡ hash_from state.old blocks.now count }
{
    let for_arm = is_for_arm();
    let mut h = pack(for_arm, state);
    for k in 0..count {
        h = compress(for_arm, h, &blocks[64 * k..64 * k + 64]);
    }
    *state = unpack(for_arm, h);
}

/// Takes `count` blocks of each of two messages into their hash values, side by side, where `has_instructions` is true.
#[inline(never)]
pub fn take_blocks_of_two(
    state1: &mut [u32; 5],
    blocks1: &[u8],
    state2: &mut [u32; 5],
    blocks2: &[u8],
    count: usize,
)
    requires long1 { 64 * count ≤ length blocks1.now }
    requires long2 { 64 * count ≤ length blocks2.now }
    ensures of_first { state1.new ≡ hash_from state1.old blocks1.now count }
    ensures of_second { state2.new ≡ hash_from state2.old blocks2.now count }
{
    let for_arm = is_for_arm();
    let mut h1 = pack(for_arm, state1);
    let mut h2 = pack(for_arm, state2);
    for k in 0..count {
        (h1, h2) = compress_two(
            for_arm,
            h1,
            &blocks1[64 * k..64 * k + 64],
            h2,
            &blocks2[64 * k..64 * k + 64],
        );
    }
    *state1 = unpack(for_arm, h1);
    *state2 = unpack(for_arm, h2);
}
