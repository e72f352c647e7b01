//! The functions of FIPS 180-4, 4.1.2, and two operations of 3.2, on vectors: each lane has a word of its own.
ghost use Rattle.std.specs.Prelude.{ℕ, ◌<◌, slice_index};
ghost use Rattle.std.specs.Int.{w32, rotate_right};
ghost use Rattle.sha2.specs.Sha256 as S256;
ghost use Rattle.sha_lanes.specs.Lanes.{HasLanes};

use std::simd::prelude::*;

/// ROTR (3.2).
#[inline(always)]
fn rotr(x: u32x8, n: u32) -> u32x8
    requires { (0 < n) × (n < 32) }
    ensures { HasLanes 8 result (λ j. rotate_right w32 (slice_index x j) n) }
{
    (x >> u32x8::splat(n)) | (x << u32x8::splat(32 - n))
}

/// Ch.
#[inline(always)]
pub(crate) fn ch(x: u32x8, y: u32x8, z: u32x8) -> u32x8
    ensures { HasLanes 8 result (λ j. S256.ch (slice_index x j) (slice_index y j) (slice_index z j)) }
{
    (x & y) ^ (!x & z)
}

/// Maj.
#[inline(always)]
pub(crate) fn maj(x: u32x8, y: u32x8, z: u32x8) -> u32x8
    ensures { HasLanes 8 result (λ j. S256.maj (slice_index x j) (slice_index y j) (slice_index z j)) }
{
    (x & y) ^ (x & z) ^ (y & z)
}

/// The upper case Σ 0.
#[inline(always)]
pub(crate) fn big_sigma0(x: u32x8) -> u32x8
    ensures { HasLanes 8 result (λ j. S256.big_sigma0 (slice_index x j)) }
{
    rotr(x, 2) ^ rotr(x, 13) ^ rotr(x, 22)
}

/// The upper case Σ 1.
#[inline(always)]
pub(crate) fn big_sigma1(x: u32x8) -> u32x8
    ensures { HasLanes 8 result (λ j. S256.big_sigma1 (slice_index x j)) }
{
    rotr(x, 6) ^ rotr(x, 11) ^ rotr(x, 25)
}

/// The lower case σ 0.
#[inline(always)]
pub(crate) fn small_sigma0(x: u32x8) -> u32x8
    ensures { HasLanes 8 result (λ j. S256.small_sigma0 (slice_index x j)) }
{
    rotr(x, 7) ^ rotr(x, 18) ^ (x >> u32x8::splat(3))
}

/// The lower case σ 1.
#[inline(always)]
pub(crate) fn small_sigma1(x: u32x8) -> u32x8
    ensures { HasLanes 8 result (λ j. S256.small_sigma1 (slice_index x j)) }
{
    rotr(x, 17) ^ rotr(x, 19) ^ (x >> u32x8::splat(10))
}

/// Addition modulo 2^32 in each lane (3.2).
#[inline(always)]
pub(crate) fn add(x: u32x8, y: u32x8) -> u32x8
    ensures { HasLanes 8 result (λ j. S256.add32 (slice_index x j) (slice_index y j)) }
{
    x + y
}
