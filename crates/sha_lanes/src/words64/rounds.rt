//! The rounds that take one block into the hash value (FIPS 180-4, 6.4.2, steps 2 to 4).
ghost use Rattle.std.specs.Prelude.{◌≡◌, ℕ, ◌+◌, ◌<◌, ◌≤◌, List, [], ◌∷◌, slice_index};
ghost use Rattle.sha2.specs.Sha512 as S512;
ghost use Rattle.sha_lanes.specs.Lanes.{lane};
ghost use Rattle.sha_lanes.specs.Words64.{BeginsSchedule, RoundsFrom};

use crate::words64::functions::{add, big_sigma0, big_sigma1, ch, maj};
use crate::words64::schedule::schedule;
use std::simd::prelude::*;

/// K 0, …, K 79 (4.2.3).
pub(crate) const K: [u64; 80] = [
    0x428a2f98d728ae22,
    0x7137449123ef65cd,
    0xb5c0fbcfec4d3b2f,
    0xe9b5dba58189dbbc,
    0x3956c25bf348b538,
    0x59f111f1b605d019,
    0x923f82a4af194f9b,
    0xab1c5ed5da6d8118,
    0xd807aa98a3030242,
    0x12835b0145706fbe,
    0x243185be4ee4b28c,
    0x550c7dc3d5ffb4e2,
    0x72be5d74f27b896f,
    0x80deb1fe3b1696b1,
    0x9bdc06a725c71235,
    0xc19bf174cf692694,
    0xe49b69c19ef14ad2,
    0xefbe4786384f25e3,
    0x0fc19dc68b8cd5b5,
    0x240ca1cc77ac9c65,
    0x2de92c6f592b0275,
    0x4a7484aa6ea6e483,
    0x5cb0a9dcbd41fbd4,
    0x76f988da831153b5,
    0x983e5152ee66dfab,
    0xa831c66d2db43210,
    0xb00327c898fb213f,
    0xbf597fc7beef0ee4,
    0xc6e00bf33da88fc2,
    0xd5a79147930aa725,
    0x06ca6351e003826f,
    0x142929670a0e6e70,
    0x27b70a8546d22ffc,
    0x2e1b21385c26c926,
    0x4d2c6dfc5ac42aed,
    0x53380d139d95b3df,
    0x650a73548baf63de,
    0x766a0abb3c77b2a8,
    0x81c2c92e47edaee6,
    0x92722c851482353b,
    0xa2bfe8a14cf10364,
    0xa81a664bbc423001,
    0xc24b8b70d0f89791,
    0xc76c51a30654be30,
    0xd192e819d6ef5218,
    0xd69906245565a910,
    0xf40e35855771202a,
    0x106aa07032bbd1b8,
    0x19a4c116b8d2d0c8,
    0x1e376c085141ab53,
    0x2748774cdf8eeb99,
    0x34b0bcb5e19b48a8,
    0x391c0cb3c5c95a63,
    0x4ed8aa4ae3418acb,
    0x5b9cca4f7763e373,
    0x682e6ff3d6b2b8a3,
    0x748f82ee5defb2fc,
    0x78a5636f43172f60,
    0x84c87814a1f0ab72,
    0x8cc702081a6439ec,
    0x90befffa23631e28,
    0xa4506cebde82bde9,
    0xbef9a3f7b2c67915,
    0xc67178f2e372532b,
    0xca273eceea26619c,
    0xd186b8c721c0c207,
    0xeada7dd6cde0eb1e,
    0xf57d4f7fee6ed178,
    0x06f067aa72176fba,
    0x0a637dc5a2c898a6,
    0x113f9804bef90dae,
    0x1b710b35131c471b,
    0x28db77f523047d84,
    0x32caab7b40c72493,
    0x3c9ebe0a15c9bebc,
    0x431d67c49c100d4c,
    0x4cc5d4becb3e42b6,
    0x597f299cfc657e2a,
    0x5fcb6fab3ad6faec,
    0x6c44198c4a475817,
];

/// One round (step 3): d + T₁, and T₁ + T₂. The other variables only take new names.
#[inline(always)]
fn round(
    a: u64x4,
    b: u64x4,
    c: u64x4,
    d: u64x4,
    e: u64x4,
    f: u64x4,
    g: u64x4,
    h: u64x4,
    k: u64,
    w: u64x4,
) -> (u64x4, u64x4)
    ensures { (j : ℕ) → j < 4 →
        S512.round (lane (a ∷ b ∷ c ∷ d ∷ e ∷ f ∷ g ∷ h ∷ []) j) k (slice_index w j)
        ≡ lane (result.1 ∷ a ∷ b ∷ c ∷ result.0 ∷ e ∷ f ∷ g ∷ []) j }
{
    let t1 = h + big_sigma1(e) + ch(e, f, g) + u64x4::splat(k) + w;
    let t2 = big_sigma0(a) + maj(a, b, c);
    (d + t1, t1 + t2)
}

/// Eight rounds, after which each variable has its first name again.
#[inline(always)]
fn eight_rounds(w: &[u64x4; 80], t: usize, v: &mut [u64x4; 8])
    requires { t + 8 ≤ 80 }
    ensures { RoundsFrom w.now t 8 v.old v.new }
{
    let [a, b, c, d, e, f, g, h] = *v;
    let (d, h) = round(a, b, c, d, e, f, g, h, K[t], w[t]);
    let (c, g) = round(h, a, b, c, d, e, f, g, K[t + 1], w[t + 1]);
    let (b, f) = round(g, h, a, b, c, d, e, f, K[t + 2], w[t + 2]);
    let (a, e) = round(f, g, h, a, b, c, d, e, K[t + 3], w[t + 3]);
    let (h, d) = round(e, f, g, h, a, b, c, d, K[t + 4], w[t + 4]);
    let (g, c) = round(d, e, f, g, h, a, b, c, K[t + 5], w[t + 5]);
    let (f, b) = round(c, d, e, f, g, h, a, b, K[t + 6], w[t + 6]);
    let (e, a) = round(b, c, d, e, f, g, h, a, K[t + 7], w[t + 7]);
    *v = [a, b, c, d, e, f, g, h];
}

/// The hash value after one more block, whose words are the first 16 of `w`.
pub(crate) fn compress(state: &mut [u64x4; 8], w: &mut [u64x4; 80])
    ensures { (j : ℕ) → j < 4 → (b : List ℕ) → BeginsSchedule w.old j b → lane state.new j ≡ S512.compress (lane state.old j) b }
{
    schedule(w);
    let mut v = *state;
    for turn in 0..10 {
        eight_rounds(w, 8 * turn, &mut v);
    }
    *state = [
        add(state[0], v[0]),
        add(state[1], v[1]),
        add(state[2], v[2]),
        add(state[3], v[3]),
        add(state[4], v[4]),
        add(state[5], v[5]),
        add(state[6], v[6]),
        add(state[7], v[7]),
    ];
}
