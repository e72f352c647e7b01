//! The words of the rounds of eight consecutive blocks, made side by side (FIPS 180-4, 6.1.2, step 1), and the rounds
//! in plain words (steps 2 to 4), over one hash value. A lane has the words of one block.
ghost use Rattle.std.specs.Prelude.{◌≡◌, ℕ, ◌+◌, ◌*◌, ◌<◌, ◌≤◌, List, [], ◌∷◌, length, take, drop, replicate};
ghost use Rattle.sha1.specs.Sha1 as S1;
ghost use Rattle.sha_lanes.specs.Lanes.{lane};
ghost use Rattle.sha_lanes.specs.Sha1.{AddsConstants, first_round};

use crate::rows::are_zeros;
use crate::sha_1::functions::{Kind, constant, first_round, plain_function};
use crate::sha_1::schedule::schedule;
use crate::words32::functions::add;
use crate::words32::schedule::load;
use std::simd::prelude::*;

/// The kind of round `t`.
#[inline(always)]
fn kind_of(t: usize) -> Kind
    requires { t < 80 }
    ensures first { first_round result ≤ t }
    ensures last { t < first_round result + 20 }
{
    if t < 20 {
        Kind::First
    } else if t < 40 {
        Kind::Second
    } else if t < 60 {
        Kind::Third
    } else {
        Kind::Fourth
    }
}

/// Sets `kw` to W t + K t of each lane, for all rounds.
#[inline(always)]
fn add_constants(kw: &mut [[u32; 8]; 80], w: &[u32x8; 80])
    ensures { (j : ℕ) → j < 8 → AddsConstants kw.new j (lane w.now j) }
{
    for t in 0..80 {
        kw[t] = add(w[t], u32x8::splat(constant(kind_of(t)))).to_array();
    }
}

/// Sets `kw` to K t in each lane, for all rounds, as with a schedule of zeros.
#[inline(always)]
fn set_constants(kw: &mut [[u32; 8]; 80])
    ensures { (j : ℕ) → j < 8 → AddsConstants kw.new j (replicate 80 0) }
{
    for t in 0..80 {
        kw[t] = [constant(kind_of(t)); 8];
    }
}

/// Sets `kw` to the schedules of eight consecutive blocks, one in each lane, with the constants added. If all bytes are
/// zeros, as after the end of a file that is shorter than its block, so are the schedules: none is made, and `kw` is
/// the constants alone. `w` is room for the schedules; what stood in it doesn't count.
#[inline(always)]
pub(crate) fn set_words(kw: &mut [[u32; 8]; 80], w: &mut [u32x8; 80], blocks: &[u8])
    requires { length blocks.now ≡ 512 }
    ensures { (j : ℕ) → j < 8 → AddsConstants kw.new j (S1.schedule (take 64 (drop (j * 64) blocks.now)) 64) }
{
    if are_zeros(blocks) {
        set_constants(kw);
    } else {
        load(w, blocks, 64, 0);
        schedule(w);
        add_constants(kw, w);
    }
}

/// One round (step 3): T, and ROTL 30 of b. The other variables only take new names.
#[inline(always)]
fn round(a: u32, b: u32, c: u32, d: u32, e: u32, kind: Kind, kw: u32) -> (u32, u32)
    ensures { (k w : ℕ) → kw ≡ S1.add32 w k
        → S1.round (a ∷ b ∷ c ∷ d ∷ e ∷ []) (S1.round_fn (first_round kind) b c d) k w ≡ result.0 ∷ a ∷ result.1 ∷ c ∷ d ∷ [] }
{
    let f = plain_function(kind, b, c, d);
    let t = a
        .rotate_left(5)
        .wrapping_add(f)
        .wrapping_add(e)
        .wrapping_add(kw);
    (t, b.rotate_left(30))
}

/// Five rounds of one kind with the words in lane `j`, after which each variable has its first name again.
#[inline(always)]
fn five_rounds(kw: &[[u32; 8]; 80], j: usize, t: usize, kind: Kind, v: &mut [u32; 5])
    requires lane { j < 8 }
    requires first { first_round kind ≤ t }
    requires last { t + 5 ≤ first_round kind + 20 }
    ensures { (w s : List ℕ) → AddsConstants kw.now j w → v.old ≡ S1.rounds s w t → v.new ≡ S1.rounds s w (t + 5) }
{
    let [a, b, c, d, e] = *v;
    let (e, b) = round(a, b, c, d, e, kind, kw[t][j]);
    let (d, a) = round(e, a, b, c, d, kind, kw[t + 1][j]);
    let (c, e) = round(d, e, a, b, c, kind, kw[t + 2][j]);
    let (b, d) = round(c, d, e, a, b, kind, kw[t + 3][j]);
    let (a, c) = round(b, c, d, e, a, kind, kw[t + 4][j]);
    *v = [a, b, c, d, e];
}

/// The twenty rounds of one kind, with the words in lane `j`.
#[inline(always)]
fn twenty_rounds(kw: &[[u32; 8]; 80], j: usize, kind: Kind, v: &mut [u32; 5])
    requires { j < 8 }
    ensures { (w s : List ℕ) → AddsConstants kw.now j w → v.old ≡ S1.rounds s w (first_round kind)
        → v.new ≡ S1.rounds s w (first_round kind + 20) }
{
    let first = first_round(kind);
    for turn in 0..4 {
        five_rounds(kw, j, first + 5 * turn, kind, v);
    }
}

/// The hash value after one more block, whose schedule stands in lane `j`.
pub(crate) fn compress(state: &mut [u32; 5], kw: &[[u32; 8]; 80], j: usize)
    requires { j < 8 }
    ensures { (b : List ℕ) → AddsConstants kw.now j (S1.schedule b 64) → state.new ≡ S1.compress state.old b }
{
    let mut v = *state;
    twenty_rounds(kw, j, Kind::First, &mut v);
    twenty_rounds(kw, j, Kind::Second, &mut v);
    twenty_rounds(kw, j, Kind::Third, &mut v);
    twenty_rounds(kw, j, Kind::Fourth, &mut v);
    *state = [
        state[0].wrapping_add(v[0]),
        state[1].wrapping_add(v[1]),
        state[2].wrapping_add(v[2]),
        state[3].wrapping_add(v[3]),
        state[4].wrapping_add(v[4]),
    ];
}
