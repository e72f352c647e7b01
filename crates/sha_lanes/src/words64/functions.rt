//! The functions of FIPS 180-4, 4.1.3, and two operations of 3.2, on vectors: each lane has a word of its own.
ghost use Rattle.std.specs.Prelude.{ℕ, ◌<◌, slice_index};
ghost use Rattle.std.specs.Int.{w64, rotate_right};
ghost use Rattle.sha2.specs.Sha512 as S512;
ghost use Rattle.sha_lanes.specs.Lanes.{HasLanes};

use std::simd::prelude::*;

/// ROTR (3.2).
#[inline(always)]
fn rotr(x: u64x4, n: u64) -> u64x4
    requires { (0 < n) × (n < 64) }
    ensures { HasLanes 4 result (λ j. rotate_right w64 (slice_index x j) n) }
{
    (x >> u64x4::splat(n)) | (x << u64x4::splat(64 - n))
}

/// Ch.
#[inline(always)]
pub(crate) fn ch(x: u64x4, y: u64x4, z: u64x4) -> u64x4
    ensures { HasLanes 4 result (λ j. S512.ch (slice_index x j) (slice_index y j) (slice_index z j)) }
{
    (x & y) ^ (!x & z)
}

/// Maj.
#[inline(always)]
pub(crate) fn maj(x: u64x4, y: u64x4, z: u64x4) -> u64x4
    ensures { HasLanes 4 result (λ j. S512.maj (slice_index x j) (slice_index y j) (slice_index z j)) }
{
    (x & y) ^ (x & z) ^ (y & z)
}

/// The upper case Σ 0.
#[inline(always)]
pub(crate) fn big_sigma0(x: u64x4) -> u64x4
    ensures { HasLanes 4 result (λ j. S512.big_sigma0 (slice_index x j)) }
{
    rotr(x, 28) ^ rotr(x, 34) ^ rotr(x, 39)
}

/// The upper case Σ 1.
#[inline(always)]
pub(crate) fn big_sigma1(x: u64x4) -> u64x4
    ensures { HasLanes 4 result (λ j. S512.big_sigma1 (slice_index x j)) }
{
    rotr(x, 14) ^ rotr(x, 18) ^ rotr(x, 41)
}

/// The lower case σ 0.
#[inline(always)]
pub(crate) fn small_sigma0(x: u64x4) -> u64x4
    ensures { HasLanes 4 result (λ j. S512.small_sigma0 (slice_index x j)) }
{
    rotr(x, 1) ^ rotr(x, 8) ^ (x >> u64x4::splat(7))
}

/// The lower case σ 1.
#[inline(always)]
pub(crate) fn small_sigma1(x: u64x4) -> u64x4
    ensures { HasLanes 4 result (λ j. S512.small_sigma1 (slice_index x j)) }
{
    rotr(x, 19) ^ rotr(x, 61) ^ (x >> u64x4::splat(6))
}

/// Addition modulo 2^64 in each lane (3.2).
#[inline(always)]
pub(crate) fn add(x: u64x4, y: u64x4) -> u64x4
    ensures { HasLanes 4 result (λ j. S512.add64 (slice_index x j) (slice_index y j)) }
{
    x + y
}
