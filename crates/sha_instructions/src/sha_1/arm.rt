//! Rounds and schedule by the instructions of 64-bit ARM.
ghost use Rattle.std.specs.Prelude.{◌≡◌, ℕ, ◌+◌, ◌%◌, ◌≤◌, List, true, replicate};
ghost use Rattle.sha1.specs.Sha1 as S1;
ghost use Rattle.sha_instructions.specs.Sha1Vectors.{Has, in_vector};
ghost use Rattle.sha_instructions.specs.Vectors.{four};

use crate::instructions::{sha1c, sha1h, sha1m, sha1p, sha1su0, sha1su1};
use crate::sha_1::Variables;
use crate::words::add;
use std::simd::prelude::*;

/// Four rounds, from round `t` on.
#[inline(always)]
pub(crate) fn four_rounds(v: Variables, words: u32x4, t: usize) -> Variables
    requires last { t + 4 ≤ 80 }
    requires whole { t % 4 ≡ 0 }
    ensures { (s w : List ℕ) → Has true v (S1.rounds s w t) → words ≡ in_vector true (four w t)
        → Has true result (S1.rounds s w (t + 4)) }
{
    let e = sha1h(v.abcd);
    let abcd = if t < 20 {
        sha1c(v.abcd, v.e, add(words, u32x4::splat(0x5a827999)))
    } else if t < 40 {
        sha1p(v.abcd, v.e, add(words, u32x4::splat(0x6ed9eba1)))
    } else if t < 60 {
        sha1m(v.abcd, v.e, add(words, u32x4::splat(0x8f1bbcdc)))
    } else {
        sha1p(v.abcd, v.e, add(words, u32x4::splat(0xca62c1d6)))
    };
    Variables { abcd, e }
}

/// Four words of the schedule, from the sixteen before them.
#[inline(always)]
pub(crate) fn next_four(w0: u32x4, w1: u32x4, w2: u32x4, w3: u32x4) -> u32x4
    ensures { (b : List ℕ) (t : ℕ) → t + 20 ≤ 80
        → w0 ≡ in_vector true (four (S1.schedule b 64) t) → w1 ≡ in_vector true (four (S1.schedule b 64) (t + 4))
        → w2 ≡ in_vector true (four (S1.schedule b 64) (t + 8)) → w3 ≡ in_vector true (four (S1.schedule b 64) (t + 12))
        → result ≡ in_vector true (four (S1.schedule b 64) (t + 16)) }
{
    sha1su1(sha1su0(w0, w1, w2), w3)
}
