//! The words of the rounds of eight consecutive blocks, made side by side (FIPS 180-4, 6.2.2, step 1), and the rounds
//! in plain words (steps 2 to 4), over one hash value. A lane has the words of one block.
ghost use Rattle.std.specs.Prelude.{◌≡◌, ℕ, ◌+◌, ◌*◌, ◌<◌, ◌≤◌, List, [], ◌∷◌, length, take, drop, replicate};
ghost use Rattle.sha2.specs.Sha256 as S256;
ghost use Rattle.sha_lanes.specs.Lanes.{lane};
ghost use Rattle.sha_lanes.specs.Words32.{AddsConstants};

use crate::rows::are_zeros;
use crate::words32::functions::add;
use crate::words32::rounds::K;
use crate::words32::schedule::{load, schedule};
use std::simd::prelude::*;

/// Sets `kw` to W t + K t of each lane, for all rounds.
#[inline(always)]
fn add_constants(kw: &mut [[u32; 8]; 64], w: &[u32x8; 64])
    ensures { (j : ℕ) → j < 8 → AddsConstants kw.new j (lane w.now j) }
{
    for t in 0..64 {
        kw[t] = add(w[t], u32x8::splat(K[t])).to_array();
    }
}

/// Sets `kw` to K t in each lane, for all rounds, as with a schedule of zeros.
#[inline(always)]
fn set_constants(kw: &mut [[u32; 8]; 64])
    ensures { (j : ℕ) → j < 8 → AddsConstants kw.new j (replicate 64 0) }
{
    for t in 0..64 {
        kw[t] = [K[t]; 8];
    }
}

/// Sets `kw` to the schedules of eight consecutive blocks, one in each lane, with the constants added. If all bytes are
/// zeros, as after the end of a file that is shorter than its block, so are the schedules: none is made, and `kw` is
/// the constants alone. `w` is room for the schedules; what stood in it doesn't count.
#[inline(always)]
pub(crate) fn set_words(kw: &mut [[u32; 8]; 64], w: &mut [u32x8; 64], blocks: &[u8])
    requires { length blocks.now ≡ 512 }
    ensures { (j : ℕ) → j < 8 → AddsConstants kw.new j (S256.schedule (take 64 (drop (j * 64) blocks.now)) 48) }
{
    if are_zeros(blocks) {
        set_constants(kw);
    } else {
        load(w, blocks, 64, 0);
        schedule(w);
        add_constants(kw, w);
    }
}

/// The e after a round (step 3): d + T₁. What doesn't need the e before is added first, so that fewer instructions, one
/// after another, lead from each e to the next.
#[inline(always)]
fn next_e(d: u32, e: u32, f: u32, g: u32, h: u32, kw: u32) -> u32
    ensures { (a b c k w : ℕ) → kw ≡ S256.add32 w k
        → result ≡ S256.add32 d (S256.temp1 (a ∷ b ∷ c ∷ d ∷ e ∷ f ∷ g ∷ h ∷ []) k w) }
{
    let without_e = h.wrapping_add(kw).wrapping_add(d);
    let sigma1 = e.rotate_right(6) ^ e.rotate_right(11) ^ e.rotate_right(25);
    let ch = (e & f) ^ (!e & g);
    without_e.wrapping_add(ch).wrapping_add(sigma1)
}

/// The a after a round (step 3): T₁ + T₂, where T₁ is the new e less d. Maj is the sum of two parts without a bit in
/// common.
#[inline(always)]
fn next_a(a: u32, b: u32, c: u32, d: u32, new_e: u32) -> u32
    ensures { (t1 : ℕ) → new_e ≡ S256.add32 d t1 → result ≡ S256.add32 t1 (S256.temp2 (a ∷ b ∷ c ∷ [])) }
{
    let sigma0 = a.rotate_right(2) ^ a.rotate_right(13) ^ a.rotate_right(22);
    let maj = (b & c).wrapping_add(a & (b ^ c));
    new_e.wrapping_add(sigma0.wrapping_add(maj).wrapping_sub(d))
}

/// Eight rounds with the words in lane `j`, on the working variables `v`. The new a and e are numbered from 1. Each a
/// but the last is made after the e of the next round, which doesn't need it.
#[inline(always)]
fn eight_rounds(kw: &[[u32; 8]; 64], j: usize, t: usize, v: &mut [u32; 8])
    requires lane { j < 8 }
    requires inside { t + 8 ≤ 64 }
    ensures { (w s : List ℕ) → AddsConstants kw.now j w → v.old ≡ S256.rounds s w t → v.new ≡ S256.rounds s w (t + 8) }
{
    let [a, b, c, d, e, f, g, h] = *v;
    let e1 = next_e(d, e, f, g, h, kw[t][j]);
    let e2 = next_e(c, e1, e, f, g, kw[t + 1][j]);
    let a1 = next_a(a, b, c, d, e1);
    let e3 = next_e(b, e2, e1, e, f, kw[t + 2][j]);
    let a2 = next_a(a1, a, b, c, e2);
    let e4 = next_e(a, e3, e2, e1, e, kw[t + 3][j]);
    let a3 = next_a(a2, a1, a, b, e3);
    let e5 = next_e(a1, e4, e3, e2, e1, kw[t + 4][j]);
    let a4 = next_a(a3, a2, a1, a, e4);
    let e6 = next_e(a2, e5, e4, e3, e2, kw[t + 5][j]);
    let a5 = next_a(a4, a3, a2, a1, e5);
    let e7 = next_e(a3, e6, e5, e4, e3, kw[t + 6][j]);
    let a6 = next_a(a5, a4, a3, a2, e6);
    let e8 = next_e(a4, e7, e6, e5, e4, kw[t + 7][j]);
    let a7 = next_a(a6, a5, a4, a3, e7);
    let a8 = next_a(a7, a6, a5, a4, e8);
    *v = [a8, a7, a6, a5, e8, e7, e6, e5];
}

/// The hash value after one more block, whose schedule stands in lane `j`.
pub(crate) fn compress(state: &mut [u32; 8], kw: &[[u32; 8]; 64], j: usize)
    requires { j < 8 }
    ensures { (b : List ℕ) → AddsConstants kw.now j (S256.schedule b 48) → state.new ≡ S256.compress state.old b }
{
    let mut v = *state;
    eight_rounds(kw, j, 0, &mut v);
    eight_rounds(kw, j, 8, &mut v);
    eight_rounds(kw, j, 16, &mut v);
    eight_rounds(kw, j, 24, &mut v);
    eight_rounds(kw, j, 32, &mut v);
    eight_rounds(kw, j, 40, &mut v);
    eight_rounds(kw, j, 48, &mut v);
    eight_rounds(kw, j, 56, &mut v);
    *state = [
        state[0].wrapping_add(v[0]),
        state[1].wrapping_add(v[1]),
        state[2].wrapping_add(v[2]),
        state[3].wrapping_add(v[3]),
        state[4].wrapping_add(v[4]),
        state[5].wrapping_add(v[5]),
        state[6].wrapping_add(v[6]),
        state[7].wrapping_add(v[7]),
    ];
}
