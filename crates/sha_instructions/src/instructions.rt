//! A function for each SHA instruction. Here its body is the model; a build by `instructions/clang_with_instructions.c` has
//! the instruction itself there.
ghost use Rattle.std.specs.Prelude.{◌≡◌, ℕ, ◌∷◌, List, replicate, slice_index};
ghost use Rattle.std.specs.Int.{w32, rotate_left};
ghost use Rattle.sha1.specs.Sha1 as S1;
ghost use Rattle.sha_instructions.specs.Sha1Vectors.{AreSums, AreWordsAndE, add_to_first, rotated, with_e, xor_two_on};
ghost use Rattle.sha_instructions.specs.Sha1Vectors.{four_rounds as four_rounds_1};
ghost use Rattle.sha_instructions.specs.Sha256Vectors.{AreFourSums, AreTwoSums, abef, add_sigma0, add_sigma1, efgh, four_rounds, from_abcd, from_abef, two_rounds};
ghost use Rattle.sha_instructions.specs.Sha512Vectors as V512;
ghost use Rattle.sha_instructions.specs.Vectors.{add, backwards, first_four, moved, xor};

use crate::models::{sha_1, sha_256, sha_512};
use std::simd::prelude::*;

/// Whether this processor has the instructions of SHA-1 and SHA-256, in a build that has them: in such a build `sha_1` and
/// `sha_256` are called only where this is true. In any other build it is false, and they run the models, which are slow.
/// Nothing is said of the answer, so what depends on it is proved for both.
#[inline]
pub fn has_instructions() -> bool {
    false
}

/// The same for the instructions of SHA-512, of ARM alone, and for `sha_512`.
#[inline]
pub fn has_instructions_of_sha_512() -> bool {
    false
}

/// Whether this is a build for ARM with its instructions, whether or not the processor has them: so that nothing of
/// x86's is left in it.
#[inline]
pub(crate) fn is_for_arm() -> bool {
    false
}

/// SHA256RNDS2 of x86.
#[inline]
pub fn sha256rnds2(first: u32x4, second: u32x4, wk: u32x4) -> u32x4
    ensures { (k w : List ℕ) → AreTwoSums wk k w → result ≡ abef (two_rounds (from_abef second first) k w) }
{
    sha_256::sha256rnds2(first, second, wk)
}

/// SHA256MSG1 of x86.
#[inline]
pub fn sha256msg1(first: u32x4, second: u32x4) -> u32x4
    ensures { result ≡ add_sigma0 first second }
{
    sha_256::sha256msg1(first, second)
}

/// SHA256MSG2 of x86.
#[inline]
pub fn sha256msg2(first: u32x4, second: u32x4) -> u32x4
    ensures { result ≡ add_sigma1 first second }
{
    sha_256::sha256msg2(first, second)
}

/// A copy, for ARM. SHA256H writes over A, B, C and D, which SHA256H2 still reads. SHA256H2 gets the copy, since the next
/// rounds wait longest for SHA256H; the compiler alone would copy for SHA256H.
#[inline]
pub fn copy(first: u32x4) -> u32x4
    ensures { result ≡ first }
{
    first
}

/// SHA256H of ARM.
#[inline]
pub fn sha256h(first: u32x4, second: u32x4, wk: u32x4) -> u32x4
    ensures { (k w : List ℕ) → AreFourSums wk k w → result ≡ first_four (four_rounds (from_abcd first second) k w) }
{
    sha_256::sha256h(first, second, wk)
}

/// SHA256H2 of ARM.
#[inline]
pub fn sha256h2(first: u32x4, second: u32x4, wk: u32x4) -> u32x4
    ensures { (k w : List ℕ) → AreFourSums wk k w → result ≡ efgh (four_rounds (from_abcd second first) k w) }
{
    sha_256::sha256h2(first, second, wk)
}

/// SHA256SU0 of ARM.
#[inline]
pub fn sha256su0(first: u32x4, second: u32x4) -> u32x4
    ensures { result ≡ add_sigma0 first second }
{
    sha_256::sha256su0(first, second)
}

/// SHA256SU1 of ARM.
#[inline]
pub fn sha256su1(first: u32x4, second: u32x4, third: u32x4) -> u32x4
    ensures { result ≡ add_sigma1 (add first (moved second third)) third }
{
    sha_256::sha256su1(first, second, third)
}

/// SHA1RNDS4 of x86 with 0.
#[inline]
pub fn sha1rnds4_0(first: u32x4, second: u32x4) -> u32x4
    ensures { (e : ℕ) (w : List ℕ) → AreWordsAndE (backwards second) w e
        → result ≡ backwards (four_rounds_1 S1.ch 0x5A827999 (with_e (backwards first) e) w) }
{
    sha_1::sha1rnds4_0(first, second)
}

/// SHA1RNDS4 of x86 with 1.
#[inline]
pub fn sha1rnds4_1(first: u32x4, second: u32x4) -> u32x4
    ensures { (e : ℕ) (w : List ℕ) → AreWordsAndE (backwards second) w e
        → result ≡ backwards (four_rounds_1 S1.parity 0x6ED9EBA1 (with_e (backwards first) e) w) }
{
    sha_1::sha1rnds4_1(first, second)
}

/// SHA1RNDS4 of x86 with 2.
#[inline]
pub fn sha1rnds4_2(first: u32x4, second: u32x4) -> u32x4
    ensures { (e : ℕ) (w : List ℕ) → AreWordsAndE (backwards second) w e
        → result ≡ backwards (four_rounds_1 S1.maj 0x8F1BBCDC (with_e (backwards first) e) w) }
{
    sha_1::sha1rnds4_2(first, second)
}

/// SHA1RNDS4 of x86 with 3.
#[inline]
pub fn sha1rnds4_3(first: u32x4, second: u32x4) -> u32x4
    ensures { (e : ℕ) (w : List ℕ) → AreWordsAndE (backwards second) w e
        → result ≡ backwards (four_rounds_1 S1.parity 0xCA62C1D6 (with_e (backwards first) e) w) }
{
    sha_1::sha1rnds4_3(first, second)
}

/// SHA1NEXTE of x86.
#[inline]
pub fn sha1nexte(first: u32x4, second: u32x4) -> u32x4
    ensures { result ≡ backwards (add_to_first (backwards second) (rotate_left w32 (slice_index first 3) 30)) }
{
    sha_1::sha1nexte(first, second)
}

/// SHA1MSG1 of x86.
#[inline]
pub fn sha1msg1(first: u32x4, second: u32x4) -> u32x4
    ensures { result ≡ backwards (xor_two_on (backwards first) (backwards second)) }
{
    sha_1::sha1msg1(first, second)
}

/// SHA1MSG2 of x86.
#[inline]
pub fn sha1msg2(first: u32x4, second: u32x4) -> u32x4
    ensures { result ≡ backwards (rotated (backwards first) (backwards second)) }
{
    sha_1::sha1msg2(first, second)
}

/// SHA1C of ARM.
#[inline]
pub fn sha1c(first: u32x4, second: u32x4, wk: u32x4) -> u32x4
    ensures { (k : ℕ) (w : List ℕ) → AreSums wk w k
        → result ≡ first_four (four_rounds_1 S1.ch k (with_e first (slice_index second 0)) w) }
{
    sha_1::sha1c(first, second, wk)
}

/// SHA1P of ARM.
#[inline]
pub fn sha1p(first: u32x4, second: u32x4, wk: u32x4) -> u32x4
    ensures { (k : ℕ) (w : List ℕ) → AreSums wk w k
        → result ≡ first_four (four_rounds_1 S1.parity k (with_e first (slice_index second 0)) w) }
{
    sha_1::sha1p(first, second, wk)
}

/// SHA1M of ARM.
#[inline]
pub fn sha1m(first: u32x4, second: u32x4, wk: u32x4) -> u32x4
    ensures { (k : ℕ) (w : List ℕ) → AreSums wk w k
        → result ≡ first_four (four_rounds_1 S1.maj k (with_e first (slice_index second 0)) w) }
{
    sha_1::sha1m(first, second, wk)
}

/// SHA1H of ARM.
#[inline]
pub fn sha1h(first: u32x4) -> u32x4
    ensures { result ≡ rotate_left w32 (slice_index first 0) 30 ∷ replicate 3 0 }
{
    sha_1::sha1h(first)
}

/// SHA1SU0 of ARM.
#[inline]
pub fn sha1su0(first: u32x4, second: u32x4, third: u32x4) -> u32x4
    ensures { result ≡ xor (xor_two_on first second) third }
{
    sha_1::sha1su0(first, second, third)
}

/// SHA1SU1 of ARM.
#[inline]
pub fn sha1su1(first: u32x4, second: u32x4) -> u32x4
    ensures { result ≡ rotated first second }
{
    sha_1::sha1su1(first, second)
}

/// SHA512H of ARM.
#[inline]
pub fn sha512h(first: u64x2, second: u64x2, third: u64x2) -> u64x2
    ensures { result ≡ V512.first_sums first second third }
{
    sha_512::sha512h(first, second, third)
}

/// SHA512H2 of ARM.
#[inline]
pub fn sha512h2(first: u64x2, second: u64x2, third: u64x2) -> u64x2
    ensures { result ≡ V512.second_sums first second third }
{
    sha_512::sha512h2(first, second, third)
}

/// SHA512SU0 of ARM.
#[inline]
pub fn sha512su0(first: u64x2, second: u64x2) -> u64x2
    ensures { result ≡ V512.add_sigma0 first second }
{
    sha_512::sha512su0(first, second)
}

/// SHA512SU1 of ARM.
#[inline]
pub fn sha512su1(first: u64x2, second: u64x2, third: u64x2) -> u64x2
    ensures { result ≡ V512.add_sigma1 first second third }
{
    sha_512::sha512su1(first, second, third)
}
