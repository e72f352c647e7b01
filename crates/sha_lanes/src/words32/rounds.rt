//! The rounds that take one block into the hash value (FIPS 180-4, 6.2.2, steps 2 to 4).
ghost use Rattle.std.specs.Prelude.{◌≡◌, ℕ, ◌+◌, ◌<◌, ◌≤◌, List, [], ◌∷◌, slice_index};
ghost use Rattle.sha2.specs.Sha256 as S256;
ghost use Rattle.sha_lanes.specs.Lanes.{lane};
ghost use Rattle.sha_lanes.specs.Words32.{BeginsSchedule, RoundsFrom};

use crate::words32::functions::{add, big_sigma0, big_sigma1, ch, maj};
use crate::words32::schedule::schedule;
use std::simd::prelude::*;

/// K 0, …, K 63 (4.2.2).
pub(crate) const K: [u32; 64] = [
    0x428a2f98, 0x71374491, 0xb5c0fbcf, 0xe9b5dba5, 0x3956c25b, 0x59f111f1, 0x923f82a4, 0xab1c5ed5,
    0xd807aa98, 0x12835b01, 0x243185be, 0x550c7dc3, 0x72be5d74, 0x80deb1fe, 0x9bdc06a7, 0xc19bf174,
    0xe49b69c1, 0xefbe4786, 0x0fc19dc6, 0x240ca1cc, 0x2de92c6f, 0x4a7484aa, 0x5cb0a9dc, 0x76f988da,
    0x983e5152, 0xa831c66d, 0xb00327c8, 0xbf597fc7, 0xc6e00bf3, 0xd5a79147, 0x06ca6351, 0x14292967,
    0x27b70a85, 0x2e1b2138, 0x4d2c6dfc, 0x53380d13, 0x650a7354, 0x766a0abb, 0x81c2c92e, 0x92722c85,
    0xa2bfe8a1, 0xa81a664b, 0xc24b8b70, 0xc76c51a3, 0xd192e819, 0xd6990624, 0xf40e3585, 0x106aa070,
    0x19a4c116, 0x1e376c08, 0x2748774c, 0x34b0bcb5, 0x391c0cb3, 0x4ed8aa4a, 0x5b9cca4f, 0x682e6ff3,
    0x748f82ee, 0x78a5636f, 0x84c87814, 0x8cc70208, 0x90befffa, 0xa4506ceb, 0xbef9a3f7, 0xc67178f2,
];

/// One round (step 3): d + T₁, and T₁ + T₂. The other variables only take new names.
#[inline(always)]
fn round(
    a: u32x8,
    b: u32x8,
    c: u32x8,
    d: u32x8,
    e: u32x8,
    f: u32x8,
    g: u32x8,
    h: u32x8,
    k: u32,
    w: u32x8,
) -> (u32x8, u32x8)
    ensures { (j : ℕ) → j < 8 →
        S256.round (lane (a ∷ b ∷ c ∷ d ∷ e ∷ f ∷ g ∷ h ∷ []) j) k (slice_index w j)
        ≡ lane (result.1 ∷ a ∷ b ∷ c ∷ result.0 ∷ e ∷ f ∷ g ∷ []) j }
{
    let t1 = h + big_sigma1(e) + ch(e, f, g) + u32x8::splat(k) + w;
    let t2 = big_sigma0(a) + maj(a, b, c);
    (d + t1, t1 + t2)
}

/// Eight rounds, after which each variable has its first name again.
#[inline(always)]
fn eight_rounds(w: &[u32x8; 64], t: usize, v: &mut [u32x8; 8])
    requires { t + 8 ≤ 64 }
    ensures { RoundsFrom w.now t 8 v.old v.new }
{
    let [a, b, c, d, e, f, g, h] = *v;
    let (d, h) = round(a, b, c, d, e, f, g, h, K[t], w[t]);
    let (c, g) = round(h, a, b, c, d, e, f, g, K[t + 1], w[t + 1]);
    let (b, f) = round(g, h, a, b, c, d, e, f, K[t + 2], w[t + 2]);
    let (a, e) = round(f, g, h, a, b, c, d, e, K[t + 3], w[t + 3]);
    let (h, d) = round(e, f, g, h, a, b, c, d, K[t + 4], w[t + 4]);
    let (g, c) = round(d, e, f, g, h, a, b, c, K[t + 5], w[t + 5]);
    let (f, b) = round(c, d, e, f, g, h, a, b, K[t + 6], w[t + 6]);
    let (e, a) = round(b, c, d, e, f, g, h, a, K[t + 7], w[t + 7]);
    *v = [a, b, c, d, e, f, g, h];
}

/// The hash value after one more block, whose words are the first 16 of `w`.
pub(crate) fn compress(state: &mut [u32x8; 8], w: &mut [u32x8; 64])
    ensures { (j : ℕ) → j < 8 → (b : List ℕ) → BeginsSchedule w.old j b → lane state.new j ≡ S256.compress (lane state.old j) b }
{
    schedule(w);
    let mut v = *state;
    for turn in 0..8 {
        eight_rounds(w, 8 * turn, &mut v);
    }
    *state = [
        add(state[0], v[0]),
        add(state[1], v[1]),
        add(state[2], v[2]),
        add(state[3], v[3]),
        add(state[4], v[4]),
        add(state[5], v[5]),
        add(state[6], v[6]),
        add(state[7], v[7]),
    ];
}
