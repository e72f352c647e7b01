//! Rounds and schedule by the instructions of x86.
ghost use Rattle.std.specs.Prelude.{◌≡◌, ℕ, ◌+◌, ◌%◌, ◌<◌, ◌≤◌, ◌^◌, List, false, slice_index};
ghost use Rattle.std.specs.Int.{w32, rotate_left};
ghost use Rattle.sha1.specs.Sha1 as S1;
ghost use Rattle.sha_instructions.specs.Sha1Vectors.{Has, in_vector};
ghost use Rattle.sha_instructions.specs.Vectors.{four};

use crate::instructions::{
    sha1msg1, sha1msg2, sha1nexte, sha1rnds4_0, sha1rnds4_1, sha1rnds4_2, sha1rnds4_3,
};
use crate::sha_1::Variables;
use crate::words::xor;
use std::simd::prelude::*;

/// Four rounds, from round `t` on.
#[inline(always)]
pub(crate) fn four_rounds(v: Variables, words: u32x4, t: usize) -> Variables
    requires last { t + 4 ≤ 80 }
    requires whole { t % 4 ≡ 0 }
    ensures { (s w : List ℕ) → Has false v (S1.rounds s w t) → words ≡ in_vector false (four w t)
        → Has false result (S1.rounds s w (t + 4)) }
{
    let words_and_e = sha1nexte(v.e, words);
    let abcd = if t < 20 {
        sha1rnds4_0(v.abcd, words_and_e)
    } else if t < 40 {
        sha1rnds4_1(v.abcd, words_and_e)
    } else if t < 60 {
        sha1rnds4_2(v.abcd, words_and_e)
    } else {
        sha1rnds4_3(v.abcd, words_and_e)
    };
    Variables { abcd, e: v.abcd }
}

/// Four words of the schedule, from the sixteen before them.
#[inline(always)]
pub(crate) fn next_four(w0: u32x4, w1: u32x4, w2: u32x4, w3: u32x4) -> u32x4
    ensures { (b : List ℕ) (t : ℕ) → t + 20 ≤ 80
        → w0 ≡ in_vector false (four (S1.schedule b 64) t) → w1 ≡ in_vector false (four (S1.schedule b 64) (t + 4))
        → w2 ≡ in_vector false (four (S1.schedule b 64) (t + 8)) → w3 ≡ in_vector false (four (S1.schedule b 64) (t + 12))
        → result ≡ in_vector false (four (S1.schedule b 64) (t + 16)) }
{
    sha1msg2(xor(sha1msg1(w0, w1), w2), w3)
}

/// A word, rotated so that a rotation by 30 bits brings it back.
#[inline(always)]
fn rotated_back(word: u32) -> u32
    ensures { rotate_left w32 result 30 ≡ word }
{
    word.rotate_left(2)
}

/// What gives E, in lane 3, when it is rotated by 30 bits.
#[inline(always)]
pub(crate) fn before_rotation(e: u32x4) -> u32x4
    ensures { rotate_left w32 (slice_index result 3) 30 ≡ slice_index e 3 }
{
    let [_, _, _, word] = e.to_array();
    u32x4::from_array([0, 0, 0, rotated_back(word)])
}

/// E of the hash value and E of the working variables, which is not yet rotated, added in lane 3.
#[inline(always)]
pub(crate) fn add_rotated(e: u32x4, before: u32x4) -> u32x4
    ensures { slice_index result 3 ≡ S1.add32 (slice_index e 3) (rotate_left w32 (slice_index before 3) 30) }
{
    sha1nexte(before, e)
}
