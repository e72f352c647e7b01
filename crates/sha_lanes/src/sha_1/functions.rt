//! The functions and constants of FIPS 180-4, 4.1.1 and 4.2.1. There are four kinds of rounds, of twenty each.
ghost use Rattle.std.specs.Prelude.{◌≡◌, ℕ, ◌<◌, slice_index};
ghost use Rattle.std.specs.Int.{w32, rotate_left};
ghost use Rattle.sha1.specs.Sha1 as S1;
ghost use Rattle.sha_lanes.specs.Lanes.{HasLanes};
ghost use Rattle.sha_lanes.specs.Sha1.{first_round};

use crate::words32::functions::{ch, maj};
use std::simd::prelude::*;

/// Rounds with the same function and constant.
#[derive(Clone, Copy)]
pub(crate) enum Kind {
    /// Rounds 0 to 19, with Ch.
    First,
    /// Rounds 20 to 39, with Parity.
    Second,
    /// Rounds 40 to 59, with Maj.
    Third,
    /// Rounds 60 to 79, with Parity.
    Fourth,
}

/// The first round of a kind.
#[inline(always)]
pub(crate) fn first_round(kind: Kind) -> usize
    ensures { result ≡ first_round kind }
{
    match kind {
        Kind::First => 0,
        Kind::Second => 20,
        Kind::Third => 40,
        Kind::Fourth => 60,
    }
}

/// K t of each round of a kind (4.2.1).
#[inline(always)]
pub(crate) fn constant(kind: Kind) -> u32
    ensures { result ≡ S1.round_constant (first_round kind) }
{
    match kind {
        Kind::First => 0x5a827999,
        Kind::Second => 0x6ed9eba1,
        Kind::Third => 0x8f1bbcdc,
        Kind::Fourth => 0xca62c1d6,
    }
}

/// f t of each round of a kind (4.1.1), on vectors.
#[inline(always)]
pub(crate) fn function(kind: Kind, x: u32x8, y: u32x8, z: u32x8) -> u32x8
    ensures { HasLanes 8 result (λ j. S1.round_fn (first_round kind) (slice_index x j) (slice_index y j) (slice_index z j)) }
{
    match kind {
        Kind::First => ch(x, y, z),
        Kind::Second | Kind::Fourth => parity(x, y, z),
        Kind::Third => maj(x, y, z),
    }
}

/// f t of each round of a kind (4.1.1), on plain words.
#[inline(always)]
pub(crate) fn plain_function(kind: Kind, x: u32, y: u32, z: u32) -> u32
    ensures { result ≡ S1.round_fn (first_round kind) x y z }
{
    match kind {
        Kind::First => (x & y) ^ (!x & z),
        Kind::Second | Kind::Fourth => x ^ y ^ z,
        Kind::Third => (x & y) ^ (x & z) ^ (y & z),
    }
}

/// Parity.
#[inline(always)]
fn parity(x: u32x8, y: u32x8, z: u32x8) -> u32x8
    ensures { HasLanes 8 result (λ j. S1.parity (slice_index x j) (slice_index y j) (slice_index z j)) }
{
    x ^ y ^ z
}

/// ROTL (3.2).
#[inline(always)]
pub(crate) fn rotl(x: u32x8, n: u32) -> u32x8
    requires { (0 < n) × (n < 32) }
    ensures { HasLanes 8 result (λ j. rotate_left w32 (slice_index x j) n) }
{
    (x << u32x8::splat(n)) | (x >> u32x8::splat(32 - n))
}
