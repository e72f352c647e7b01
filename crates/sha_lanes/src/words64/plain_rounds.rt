//! The words of the rounds of four consecutive blocks, made side by side (FIPS 180-4, 6.4.2, step 1), and the rounds
//! in plain words (steps 2 to 4), over one hash value. A lane has the words of one block.
ghost use Rattle.std.specs.Prelude.{◌≡◌, ℕ, ◌+◌, ◌*◌, ◌<◌, ◌≤◌, List, [], ◌∷◌, length, take, drop, replicate};
ghost use Rattle.sha2.specs.Sha512 as S512;
ghost use Rattle.sha_lanes.specs.Lanes.{lane};
ghost use Rattle.sha_lanes.specs.Words64.{AddsConstants};

use crate::rows::are_zeros;
use crate::words64::functions::add;
use crate::words64::rounds::K;
use crate::words64::schedule::{load, schedule};
use std::simd::prelude::*;

/// Sets `kw` to W t + K t of each lane, for all rounds.
#[inline(always)]
fn add_constants(kw: &mut [[u64; 4]; 80], w: &[u64x4; 80])
    ensures { (j : ℕ) → j < 4 → AddsConstants kw.new j (lane w.now j) }
{
    for t in 0..80 {
        kw[t] = add(w[t], u64x4::splat(K[t])).to_array();
    }
}

/// Sets `kw` to K t in each lane, for all rounds, as with a schedule of zeros.
#[inline(always)]
fn set_constants(kw: &mut [[u64; 4]; 80])
    ensures { (j : ℕ) → j < 4 → AddsConstants kw.new j (replicate 80 0) }
{
    for t in 0..80 {
        kw[t] = [K[t]; 4];
    }
}

/// Sets `kw` to the schedules of four consecutive blocks, one in each lane, with the constants added. If all bytes are
/// zeros, as after the end of a file that is shorter than its block, so are the schedules: none is made, and `kw` is
/// the constants alone. `w` is room for the schedules; what stood in it doesn't count.
#[inline(always)]
pub(crate) fn set_words(kw: &mut [[u64; 4]; 80], w: &mut [u64x4; 80], blocks: &[u8])
    requires { length blocks.now ≡ 512 }
    ensures { (j : ℕ) → j < 4 → AddsConstants kw.new j (S512.schedule (take 128 (drop (j * 128) blocks.now)) 64) }
{
    if are_zeros(blocks) {
        set_constants(kw);
    } else {
        load(w, blocks, 128, 0);
        schedule(w);
        add_constants(kw, w);
    }
}

/// One round (step 3): d + T₁, and T₁ + T₂. The other variables only take new names.
#[inline(always)]
fn round(a: u64, b: u64, c: u64, d: u64, e: u64, f: u64, g: u64, h: u64, kw: u64) -> (u64, u64)
    ensures { (k w : ℕ) → kw ≡ S512.add64 w k → S512.round (a ∷ b ∷ c ∷ d ∷ e ∷ f ∷ g ∷ h ∷ []) k w
        ≡ result.1 ∷ a ∷ b ∷ c ∷ result.0 ∷ e ∷ f ∷ g ∷ [] }
{
    let sigma1 = e.rotate_right(14) ^ e.rotate_right(18) ^ e.rotate_right(41);
    let ch = (e & f) ^ (!e & g);
    let t1 = h.wrapping_add(sigma1).wrapping_add(ch).wrapping_add(kw);
    let sigma0 = a.rotate_right(28) ^ a.rotate_right(34) ^ a.rotate_right(39);
    let maj = (a & b) ^ (a & c) ^ (b & c);
    let t2 = sigma0.wrapping_add(maj);
    (d.wrapping_add(t1), t1.wrapping_add(t2))
}

/// Eight rounds with the words in lane `j`, after which each variable has its first name again.
#[inline(always)]
fn eight_rounds(kw: &[[u64; 4]; 80], j: usize, t: usize, v: &mut [u64; 8])
    requires lane { j < 4 }
    requires inside { t + 8 ≤ 80 }
    ensures { (w s : List ℕ) → AddsConstants kw.now j w → v.old ≡ S512.rounds s w t → v.new ≡ S512.rounds s w (t + 8) }
{
    let [a, b, c, d, e, f, g, h] = *v;
    let (d, h) = round(a, b, c, d, e, f, g, h, kw[t][j]);
    let (c, g) = round(h, a, b, c, d, e, f, g, kw[t + 1][j]);
    let (b, f) = round(g, h, a, b, c, d, e, f, kw[t + 2][j]);
    let (a, e) = round(f, g, h, a, b, c, d, e, kw[t + 3][j]);
    let (h, d) = round(e, f, g, h, a, b, c, d, kw[t + 4][j]);
    let (g, c) = round(d, e, f, g, h, a, b, c, kw[t + 5][j]);
    let (f, b) = round(c, d, e, f, g, h, a, b, kw[t + 6][j]);
    let (e, a) = round(b, c, d, e, f, g, h, a, kw[t + 7][j]);
    *v = [a, b, c, d, e, f, g, h];
}

/// The hash value after one more block, whose schedule stands in lane `j`.
pub(crate) fn compress(state: &mut [u64; 8], kw: &[[u64; 4]; 80], j: usize)
    requires { j < 4 }
    ensures { (b : List ℕ) → AddsConstants kw.now j (S512.schedule b 64) → state.new ≡ S512.compress state.old b }
{
    let mut v = *state;
    for turn in 0..10 {
        eight_rounds(kw, j, 8 * turn, &mut v);
    }
    *state = [
        state[0].wrapping_add(v[0]),
        state[1].wrapping_add(v[1]),
        state[2].wrapping_add(v[2]),
        state[3].wrapping_add(v[3]),
        state[4].wrapping_add(v[4]),
        state[5].wrapping_add(v[5]),
        state[6].wrapping_add(v[6]),
        state[7].wrapping_add(v[7]),
    ];
}
