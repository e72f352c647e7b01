//! SHA-256's instructions.
ghost use Rattle.std.specs.Prelude.{◌≡◌, ℕ, List, slice_index};
ghost use Rattle.sha2.specs.Sha256 as S256;
ghost use Rattle.sha_instructions.specs.Sha256Vectors.{AreFourSums, AreTwoSums, abef, add_sigma0, add_sigma1, efgh, four_rounds, from_abcd, from_abef, two_rounds};
ghost use Rattle.sha_instructions.specs.Vectors.{first_four, add, moved};

use std::simd::prelude::*;

/// The lower case σ 0 (4.1.2).
fn small_sigma0(x: u32) -> u32
    ensures { result ≡ S256.small_sigma0 x }
{
    x.rotate_right(7) ^ x.rotate_right(18) ^ (x >> 3)
}

/// The lower case σ 1.
fn small_sigma1(x: u32) -> u32
    ensures { result ≡ S256.small_sigma1 x }
{
    x.rotate_right(17) ^ x.rotate_right(19) ^ (x >> 10)
}

/// A round on the working variables a to h (6.2.2, step 3). The constant has been added to the word.
fn round(v: [u32; 8], wk: u32) -> [u32; 8]
    ensures { (k w : ℕ) → wk ≡ S256.add32 w k → result ≡ S256.round v k w }
{
    let [a, b, c, d, e, f, g, h] = v;
    let sigma1 = e.rotate_right(6) ^ e.rotate_right(11) ^ e.rotate_right(25);
    let ch = (e & f) ^ (!e & g);
    let t1 = h.wrapping_add(sigma1).wrapping_add(ch).wrapping_add(wk);
    let sigma0 = a.rotate_right(2) ^ a.rotate_right(13) ^ a.rotate_right(22);
    let maj = (a & b) ^ (a & c) ^ (b & c);
    let t2 = sigma0.wrapping_add(maj);
    [t1.wrapping_add(t2), a, b, c, d.wrapping_add(t1), e, f, g]
}

/// SHA256RNDS2 of x86: two rounds. The first operand has H, G, D and C, the second F, E, B and A, and XMM0 the words of
/// the two rounds. The result is the new F, E, B and A.
pub fn sha256rnds2(first: u32x4, second: u32x4, wk: u32x4) -> u32x4
    ensures { (k w : List ℕ) → AreTwoSums wk k w → result ≡ abef (two_rounds (from_abef second first) k w) }
{
    let [h, g, d, c] = first.to_array();
    let [f, e, b, a] = second.to_array();
    let [wk0, wk1, _, _] = wk.to_array();
    let v = round([a, b, c, d, e, f, g, h], wk0);
    let [a, b, _, _, e, f, _, _] = round(v, wk1);
    u32x4::from_array([f, e, b, a])
}

/// SHA256MSG1 of x86: the sum of each lane of the first operand and σ 0 of the lane after it. Lane 0 of the second operand
/// comes after the last.
pub fn sha256msg1(first: u32x4, second: u32x4) -> u32x4
    ensures { result ≡ add_sigma0 first second }
{
    let [w0, w1, w2, w3] = first.to_array();
    let [w4, _, _, _] = second.to_array();
    u32x4::from_array([
        w0.wrapping_add(small_sigma0(w1)),
        w1.wrapping_add(small_sigma0(w2)),
        w2.wrapping_add(small_sigma0(w3)),
        w3.wrapping_add(small_sigma0(w4)),
    ])
}

/// SHA256MSG2 of x86: the sum of each lane of the first operand and σ 1 of the word two before it, in the result. Lanes 2
/// and 3 of the second operand are the last two words before them.
pub fn sha256msg2(first: u32x4, second: u32x4) -> u32x4
    ensures { result ≡ add_sigma1 first second }
{
    let [s0, s1, s2, s3] = first.to_array();
    let [_, _, w14, w15] = second.to_array();
    let w16 = s0.wrapping_add(small_sigma1(w14));
    let w17 = s1.wrapping_add(small_sigma1(w15));
    let w18 = s2.wrapping_add(small_sigma1(w16));
    let w19 = s3.wrapping_add(small_sigma1(w17));
    u32x4::from_array([w16, w17, w18, w19])
}

/// Four rounds on A, B, C and D, and E, F, G and H.
fn four_rounds(first: u32x4, second: u32x4, wk: u32x4) -> [u32; 8]
    ensures { (k w : List ℕ) → AreFourSums wk k w → result ≡ four_rounds (from_abcd first second) k w }
{
    let [a, b, c, d] = first.to_array();
    let [e, f, g, h] = second.to_array();
    let [wk0, wk1, wk2, wk3] = wk.to_array();
    let v = round([a, b, c, d, e, f, g, h], wk0);
    let v = round(v, wk1);
    let v = round(v, wk2);
    round(v, wk3)
}

/// SHA256H of ARM: A, B, C and D after four rounds. The first operand has A, B, C and D before them, the second E, F, G
/// and H.
pub fn sha256h(first: u32x4, second: u32x4, wk: u32x4) -> u32x4
    ensures { (k w : List ℕ) → AreFourSums wk k w → result ≡ first_four (four_rounds (from_abcd first second) k w) }
{
    let [a, b, c, d, _, _, _, _] = four_rounds(first, second, wk);
    u32x4::from_array([a, b, c, d])
}

/// SHA256H2 of ARM: E, F, G and H after four rounds. The first operand has E, F, G and H before them, the second A, B, C
/// and D.
pub fn sha256h2(first: u32x4, second: u32x4, wk: u32x4) -> u32x4
    ensures { (k w : List ℕ) → AreFourSums wk k w → result ≡ efgh (four_rounds (from_abcd second first) k w) }
{
    let [_, _, _, _, e, f, g, h] = four_rounds(second, first, wk);
    u32x4::from_array([e, f, g, h])
}

/// SHA256SU0 of ARM: as SHA256MSG1.
pub fn sha256su0(first: u32x4, second: u32x4) -> u32x4
    ensures { result ≡ add_sigma0 first second }
{
    sha256msg1(first, second)
}

/// SHA256SU1 of ARM: as SHA256MSG2 with the third operand in the place of the second, and a word more is added to each
/// lane: lanes 1 to 3 of the second operand, and lane 0 of the third.
pub fn sha256su1(first: u32x4, second: u32x4, third: u32x4) -> u32x4
    ensures { result ≡ add_sigma1 (add first (moved second third)) third }
{
    let [s0, s1, s2, s3] = first.to_array();
    let [_, w9, w10, w11] = second.to_array();
    let [w12, _, w14, w15] = third.to_array();
    let w16 = s0.wrapping_add(w9).wrapping_add(small_sigma1(w14));
    let w17 = s1.wrapping_add(w10).wrapping_add(small_sigma1(w15));
    let w18 = s2.wrapping_add(w11).wrapping_add(small_sigma1(w16));
    let w19 = s3.wrapping_add(w12).wrapping_add(small_sigma1(w17));
    u32x4::from_array([w16, w17, w18, w19])
}
