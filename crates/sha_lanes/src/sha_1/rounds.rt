//! The rounds that take one block into the hash value (FIPS 180-4, 6.1.2, steps 2 to 4).
ghost use Rattle.std.specs.Prelude.{◌≡◌, ℕ, ◌+◌, ◌<◌, ◌≤◌, List, [], ◌∷◌, slice_index};
ghost use Rattle.sha1.specs.Sha1 as S1;
ghost use Rattle.sha_lanes.specs.Lanes.{lane};
ghost use Rattle.sha_lanes.specs.Sha1.{RoundsFrom, first_round};
ghost use Rattle.sha_lanes.specs.Words32.{BeginsSchedule};

use crate::sha_1::functions::{Kind, constant, first_round, function, rotl};
use crate::sha_1::schedule::schedule;
use crate::words32::functions::add;
use std::simd::prelude::*;

/// One round (step 3): T, and ROTL 30 of b. The other variables only take new names.
#[inline(always)]
fn round(a: u32x8, b: u32x8, c: u32x8, d: u32x8, e: u32x8, kind: Kind, w: u32x8) -> (u32x8, u32x8)
    ensures { (j : ℕ) → j < 8 →
        S1.round (lane (a ∷ b ∷ c ∷ d ∷ e ∷ []) j)
        (S1.round_fn (first_round kind) (slice_index b j) (slice_index c j) (slice_index d j))
        (S1.round_constant (first_round kind)) (slice_index w j)
        ≡ lane (result.0 ∷ a ∷ result.1 ∷ c ∷ d ∷ []) j }
{
    let t = rotl(a, 5) + function(kind, b, c, d) + e + u32x8::splat(constant(kind)) + w;
    (t, rotl(b, 30))
}

/// Five rounds of one kind, after which each variable has its first name again.
#[inline(always)]
fn five_rounds(w: &[u32x8; 80], t: usize, kind: Kind, v: &mut [u32x8; 5])
    requires first { first_round kind ≤ t }
    requires last { t + 5 ≤ first_round kind + 20 }
    ensures { RoundsFrom w.now t 5 v.old v.new }
{
    let [a, b, c, d, e] = *v;
    let (e, b) = round(a, b, c, d, e, kind, w[t]);
    let (d, a) = round(e, a, b, c, d, kind, w[t + 1]);
    let (c, e) = round(d, e, a, b, c, kind, w[t + 2]);
    let (b, d) = round(c, d, e, a, b, kind, w[t + 3]);
    let (a, c) = round(b, c, d, e, a, kind, w[t + 4]);
    *v = [a, b, c, d, e];
}

/// The twenty rounds of one kind.
#[inline(always)]
fn twenty_rounds(w: &[u32x8; 80], kind: Kind, v: &mut [u32x8; 5])
    ensures { RoundsFrom w.now (first_round kind) 20 v.old v.new }
{
    let first = first_round(kind);
    for turn in 0..4 {
        five_rounds(w, first + 5 * turn, kind, v);
    }
}

/// The hash value after one more block, whose words are the first 16 of `w`.
pub(crate) fn compress(state: &mut [u32x8; 5], w: &mut [u32x8; 80])
    ensures { (j : ℕ) → j < 8 → (b : List ℕ) → BeginsSchedule w.old j b → lane state.new j ≡ S1.compress (lane state.old j) b }
{
    schedule(w);
    let mut v = *state;
    twenty_rounds(w, Kind::First, &mut v);
    twenty_rounds(w, Kind::Second, &mut v);
    twenty_rounds(w, Kind::Third, &mut v);
    twenty_rounds(w, Kind::Fourth, &mut v);
    *state = [
        add(state[0], v[0]),
        add(state[1], v[1]),
        add(state[2], v[2]),
        add(state[3], v[3]),
        add(state[4], v[4]),
    ];
}
