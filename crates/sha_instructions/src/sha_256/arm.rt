//! Rounds and schedule by the instructions of 64-bit ARM.
ghost use Rattle.std.specs.Prelude.{◌≡◌, ℕ, ◌+◌, ◌≤◌, List, true};
ghost use Rattle.sha2.specs.Sha256 as S256;
ghost use Rattle.sha_instructions.specs.Sha256Vectors.{Has};
ghost use Rattle.sha_instructions.specs.Vectors.{four};

use crate::instructions::{copy, sha256h, sha256h2, sha256su0, sha256su1};
use crate::sha_256::Variables;
use crate::words::add_constants_256;
use std::simd::prelude::*;

/// Four rounds, from round `t` on.
#[inline(always)]
pub(crate) fn four_rounds(v: Variables, words: u32x4, t: usize) -> Variables
    requires { t + 4 ≤ 64 }
    ensures { (s w : List ℕ) → Has true v (S256.rounds s w t) → words ≡ four w t
        → Has true result (S256.rounds s w (t + 4)) }
{
    let wk = add_constants_256(words, t);
    let before = copy(v.first);
    Variables {
        first: sha256h(v.first, v.second, wk),
        second: sha256h2(v.second, before, wk),
    }
}

/// Four words of the schedule, from the sixteen before them.
#[inline(always)]
pub(crate) fn next_four(w0: u32x4, w1: u32x4, w2: u32x4, w3: u32x4) -> u32x4
    ensures { (b : List ℕ) (t : ℕ) → t + 20 ≤ 64
        → w0 ≡ four (S256.schedule b 48) t → w1 ≡ four (S256.schedule b 48) (t + 4)
        → w2 ≡ four (S256.schedule b 48) (t + 8) → w3 ≡ four (S256.schedule b 48) (t + 12)
        → result ≡ four (S256.schedule b 48) (t + 16) }
{
    sha256su1(sha256su0(w0, w1), w2, w3)
}
