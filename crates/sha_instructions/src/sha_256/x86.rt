//! Rounds and schedule by the instructions of x86.
ghost use Rattle.std.specs.Prelude.{◌≡◌, ℕ, ◌+◌, ◌≤◌, List, false};
ghost use Rattle.sha2.specs.Sha256 as S256;
ghost use Rattle.sha_instructions.specs.Sha256Vectors.{Has};
ghost use Rattle.sha_instructions.specs.Vectors.{four, moved};

use crate::instructions::{sha256msg1, sha256msg2, sha256rnds2};
use crate::sha_256::Variables;
use crate::words::{add, add_constants_256};
use std::simd::prelude::*;

/// Four rounds, from round `t` on. After two, C, D, G and H are what A, B, E and F were.
#[inline(always)]
pub(crate) fn four_rounds(v: Variables, words: u32x4, t: usize) -> Variables
    requires { t + 4 ≤ 64 }
    ensures { (s w : List ℕ) → Has false v (S256.rounds s w t) → words ≡ four w t
        → Has false result (S256.rounds s w (t + 4)) }
{
    let low = add_constants_256(words, t);
    let [_, _, wk2, wk3] = low.to_array();
    let high = u32x4::from_array([wk2, wk3, wk2, wk3]);
    let between = sha256rnds2(v.second, v.first, low);
    Variables {
        first: sha256rnds2(v.first, between, high),
        second: between,
    }
}

/// Three lanes from the second on, and the first of the other vector.
#[inline(always)]
fn moved(x: u32x4, y: u32x4) -> u32x4
    ensures { result ≡ moved x y }
{
    let [_, x1, x2, x3] = x.to_array();
    let [y0, _, _, _] = y.to_array();
    u32x4::from_array([x1, x2, x3, y0])
}

/// Four words of the schedule, from the sixteen before them.
#[inline(always)]
pub(crate) fn next_four(w0: u32x4, w1: u32x4, w2: u32x4, w3: u32x4) -> u32x4
    ensures { (b : List ℕ) (t : ℕ) → t + 20 ≤ 64
        → w0 ≡ four (S256.schedule b 48) t → w1 ≡ four (S256.schedule b 48) (t + 4)
        → w2 ≡ four (S256.schedule b 48) (t + 8) → w3 ≡ four (S256.schedule b 48) (t + 12)
        → result ≡ four (S256.schedule b 48) (t + 16) }
{
    sha256msg2(add(sha256msg1(w0, w1), moved(w2, w3)), w3)
}
