//! SHA-512's instructions, of ARM alone.
ghost use Rattle.std.specs.Prelude.{◌≡◌, ℕ, List, slice_index};
ghost use Rattle.sha2.specs.Sha512 as S512;
ghost use Rattle.sha_instructions.specs.Sha512Vectors.{add_sigma0, add_sigma1, first_sums, second_sums};

use std::simd::prelude::*;

/// Ch (4.1.3).
fn ch(x: u64, y: u64, z: u64) -> u64
    ensures { result ≡ S512.ch x y z }
{
    (x & y) ^ (!x & z)
}

/// Maj.
fn maj(x: u64, y: u64, z: u64) -> u64
    ensures { result ≡ S512.maj x y z }
{
    (x & y) ^ (x & z) ^ (y & z)
}

/// The upper case Σ 0.
fn big_sigma0(x: u64) -> u64
    ensures { result ≡ S512.big_sigma0 x }
{
    x.rotate_right(28) ^ x.rotate_right(34) ^ x.rotate_right(39)
}

/// The upper case Σ 1.
fn big_sigma1(x: u64) -> u64
    ensures { result ≡ S512.big_sigma1 x }
{
    x.rotate_right(14) ^ x.rotate_right(18) ^ x.rotate_right(41)
}

/// The lower case σ 0.
fn small_sigma0(x: u64) -> u64
    ensures { result ≡ S512.small_sigma0 x }
{
    x.rotate_right(1) ^ x.rotate_right(8) ^ (x >> 7)
}

/// The lower case σ 1.
fn small_sigma1(x: u64) -> u64
    ensures { result ≡ S512.small_sigma1 x }
{
    x.rotate_right(19) ^ x.rotate_right(61) ^ (x >> 6)
}

/// SHA512H: T 1 of two rounds, that of the second in lane 0. The first operand has G and H with word and constant of the
/// second and of the first round added, the second F and G, and the third D and E.
pub fn sha512h(first: u64x2, second: u64x2, third: u64x2) -> u64x2
    ensures { result ≡ first_sums first second third }
{
    let [w0, w1] = first.to_array();
    let [x0, x1] = second.to_array();
    let [y0, y1] = third.to_array();
    let high = ch(y1, x0, x1).wrapping_add(big_sigma1(y1)).wrapping_add(w1);
    let e = high.wrapping_add(y0);
    let low = ch(e, y1, x0).wrapping_add(big_sigma1(e)).wrapping_add(w0);
    u64x2::from_array([low, high])
}

/// SHA512H2: A and B after two rounds. The first operand has what SHA512H gives, the second C and D, and the third A and
/// B before them.
pub fn sha512h2(first: u64x2, second: u64x2, third: u64x2) -> u64x2
    ensures { result ≡ second_sums first second third }
{
    let [w0, w1] = first.to_array();
    let [x0, _] = second.to_array();
    let [y0, y1] = third.to_array();
    let high = maj(x0, y1, y0)
        .wrapping_add(big_sigma0(y0))
        .wrapping_add(w1);
    let low = maj(high, y0, y1)
        .wrapping_add(big_sigma0(high))
        .wrapping_add(w0);
    u64x2::from_array([low, high])
}

/// SHA512SU0: the sum of each lane of the first operand and σ 0 of the word after it. Lane 0 of the second comes after the
/// last.
pub fn sha512su0(first: u64x2, second: u64x2) -> u64x2
    ensures { result ≡ add_sigma0 first second }
{
    let [w0, w1] = first.to_array();
    let [w2, _] = second.to_array();
    u64x2::from_array([
        w0.wrapping_add(small_sigma0(w1)),
        w1.wrapping_add(small_sigma0(w2)),
    ])
}

/// SHA512SU1: the sum of each lane of the first operand, σ 1 of that of the second, and that of the third.
pub fn sha512su1(first: u64x2, second: u64x2, third: u64x2) -> u64x2
    ensures { result ≡ add_sigma1 first second third }
{
    let [w0, w1] = first.to_array();
    let [w14, w15] = second.to_array();
    let [w9, w10] = third.to_array();
    u64x2::from_array([
        w0.wrapping_add(small_sigma1(w14)).wrapping_add(w9),
        w1.wrapping_add(small_sigma1(w15)).wrapping_add(w10),
    ])
}
