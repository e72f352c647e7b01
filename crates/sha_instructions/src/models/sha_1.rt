//! SHA-1's instructions. In vectors of x86 the first word is in lane 3.
ghost use Rattle.std.specs.Prelude.{◌≡◌, ℕ, ◌∷◌, List, [], bit_xor, replicate, slice_index};
ghost use Rattle.std.specs.Int.{w32, rotate_left};
ghost use Rattle.sha1.specs.Sha1 as S1;
ghost use Rattle.sha_instructions.specs.Sha1Vectors.{AreSums, AreWordsAndE, add_to_first, four_rounds, rotated, round_by, with_e, xor_two_on};
ghost use Rattle.sha_instructions.specs.Vectors.{backwards, first_four, xor};

use std::simd::prelude::*;

/// A round on the working variables a to e (6.1.2, step 3). The constant has been added to the word.
fn round(v: [u32; 5], f: u32, wk: u32) -> [u32; 5]
    ensures { (k w : ℕ) → wk ≡ S1.add32 w k → result ≡ S1.round v f k w }
{
    let [a, b, c, d, e] = v;
    let t = a
        .rotate_left(5)
        .wrapping_add(f)
        .wrapping_add(e)
        .wrapping_add(wk);
    [t, a, b.rotate_left(30), c, d]
}

/// A round with Ch (4.1.1).
fn choose(v: [u32; 5], wk: u32) -> [u32; 5]
    ensures { (k w : ℕ) → wk ≡ S1.add32 w k → result ≡ round_by S1.ch k v w }
{
    let [_, b, c, d, _] = v;
    round(v, (b & c) ^ (!b & d), wk)
}

/// A round with Parity.
fn parity(v: [u32; 5], wk: u32) -> [u32; 5]
    ensures { (k w : ℕ) → wk ≡ S1.add32 w k → result ≡ round_by S1.parity k v w }
{
    let [_, b, c, d, _] = v;
    round(v, b ^ c ^ d, wk)
}

/// A round with Maj.
fn majority(v: [u32; 5], wk: u32) -> [u32; 5]
    ensures { (k w : ℕ) → wk ≡ S1.add32 w k → result ≡ round_by S1.maj k v w }
{
    let [_, b, c, d, _] = v;
    round(v, (b & c) ^ (b & d) ^ (c & d), wk)
}

/// Four rounds with Ch.
fn choose_four(v: [u32; 5], wk: [u32; 4]) -> [u32; 5]
    ensures { (k : ℕ) (w : List ℕ) → AreSums wk w k → result ≡ four_rounds S1.ch k v w }
{
    let [wk0, wk1, wk2, wk3] = wk;
    let v = choose(v, wk0);
    let v = choose(v, wk1);
    let v = choose(v, wk2);
    choose(v, wk3)
}

/// Four rounds with Parity.
fn parity_four(v: [u32; 5], wk: [u32; 4]) -> [u32; 5]
    ensures { (k : ℕ) (w : List ℕ) → AreSums wk w k → result ≡ four_rounds S1.parity k v w }
{
    let [wk0, wk1, wk2, wk3] = wk;
    let v = parity(v, wk0);
    let v = parity(v, wk1);
    let v = parity(v, wk2);
    parity(v, wk3)
}

/// Four rounds with Maj.
fn majority_four(v: [u32; 5], wk: [u32; 4]) -> [u32; 5]
    ensures { (k : ℕ) (w : List ℕ) → AreSums wk w k → result ≡ four_rounds S1.maj k v w }
{
    let [wk0, wk1, wk2, wk3] = wk;
    let v = majority(v, wk0);
    let v = majority(v, wk1);
    let v = majority(v, wk2);
    majority(v, wk3)
}

/// A, B, C and D from lane 3 down, and E, for which 0 stands, since it has been added to the first word.
fn variables(first: u32x4) -> [u32; 5]
    ensures { result ≡ with_e (backwards first) 0 }
{
    let [d, c, b, a] = first.to_array();
    [a, b, c, d, 0]
}

/// The four words from lane 3 down, with the constant added to each.
fn sums(second: u32x4, k: u32) -> [u32; 4]
    ensures { AreSums result (backwards second) k }
{
    let [w3, w2, w1, w0] = second.to_array();
    [
        w0.wrapping_add(k),
        w1.wrapping_add(k),
        w2.wrapping_add(k),
        w3.wrapping_add(k),
    ]
}

/// The first four working variables, from lane 3 down.
fn vector(v: [u32; 5]) -> u32x4
    ensures { result ≡ backwards v }
{
    let [a, b, c, d, _] = v;
    u32x4::from_array([d, c, b, a])
}

/// SHA1RNDS4 of x86 with 0: four of the rounds 0 to 19. The first operand has A, B, C and D, and the second four words,
/// to the first of which E has been added.
pub fn sha1rnds4_0(first: u32x4, second: u32x4) -> u32x4
    ensures { (e : ℕ) (w : List ℕ) → AreWordsAndE (backwards second) w e
        → result ≡ backwards (four_rounds S1.ch 0x5A827999 (with_e (backwards first) e) w) }
{
    vector(choose_four(variables(first), sums(second, 0x5a827999)))
}

/// SHA1RNDS4 of x86 with 1: four of the rounds 20 to 39.
pub fn sha1rnds4_1(first: u32x4, second: u32x4) -> u32x4
    ensures { (e : ℕ) (w : List ℕ) → AreWordsAndE (backwards second) w e
        → result ≡ backwards (four_rounds S1.parity 0x6ED9EBA1 (with_e (backwards first) e) w) }
{
    vector(parity_four(variables(first), sums(second, 0x6ed9eba1)))
}

/// SHA1RNDS4 of x86 with 2: four of the rounds 40 to 59.
pub fn sha1rnds4_2(first: u32x4, second: u32x4) -> u32x4
    ensures { (e : ℕ) (w : List ℕ) → AreWordsAndE (backwards second) w e
        → result ≡ backwards (four_rounds S1.maj 0x8F1BBCDC (with_e (backwards first) e) w) }
{
    vector(majority_four(variables(first), sums(second, 0x8f1bbcdc)))
}

/// SHA1RNDS4 of x86 with 3: four of the rounds 60 to 79.
pub fn sha1rnds4_3(first: u32x4, second: u32x4) -> u32x4
    ensures { (e : ℕ) (w : List ℕ) → AreWordsAndE (backwards second) w e
        → result ≡ backwards (four_rounds S1.parity 0xCA62C1D6 (with_e (backwards first) e) w) }
{
    vector(parity_four(variables(first), sums(second, 0xca62c1d6)))
}

/// SHA1NEXTE of x86: the four words of the second operand, to the first of which A of the first operand is added, rotated
/// by 30 bits, as it becomes E in four rounds.
pub fn sha1nexte(first: u32x4, second: u32x4) -> u32x4
    ensures { result ≡ backwards (add_to_first (backwards second) (rotate_left w32 (slice_index first 3) 30)) }
{
    let [_, _, _, a] = first.to_array();
    let [w3, w2, w1, w0] = second.to_array();
    u32x4::from_array([w3, w2, w1, w0.wrapping_add(a.rotate_left(30))])
}

/// SHA1MSG1 of x86: the exclusive or of each of the four words of the first operand and the word two after it. The first
/// two of the second operand come after the last.
pub fn sha1msg1(first: u32x4, second: u32x4) -> u32x4
    ensures { result ≡ backwards (xor_two_on (backwards first) (backwards second)) }
{
    let [w3, w2, w1, w0] = first.to_array();
    let [_, _, w5, w4] = second.to_array();
    u32x4::from_array([w5 ^ w3, w4 ^ w2, w3 ^ w1, w2 ^ w0])
}

/// SHA1MSG2 of x86: four words of the schedule. The second operand has the four words before them, and the first what
/// else goes into each.
pub fn sha1msg2(first: u32x4, second: u32x4) -> u32x4
    ensures { result ≡ backwards (rotated (backwards first) (backwards second)) }
{
    let [x3, x2, x1, x0] = first.to_array();
    let [w15, w14, w13, _] = second.to_array();
    let w16 = (x0 ^ w13).rotate_left(1);
    let w17 = (x1 ^ w14).rotate_left(1);
    let w18 = (x2 ^ w15).rotate_left(1);
    let w19 = (x3 ^ w16).rotate_left(1);
    u32x4::from_array([w19, w18, w17, w16])
}

/// The first four working variables, from lane 0 up.
fn vector_for_arm(v: [u32; 5]) -> u32x4
    ensures { result ≡ first_four v }
{
    let [a, b, c, d, _] = v;
    u32x4::from_array([a, b, c, d])
}

/// The working variables: A, B, C and D of the first operand, and E, which is lane 0 of the second.
fn variables_for_arm(first: u32x4, second: u32x4) -> [u32; 5]
    ensures { result ≡ with_e first (slice_index second 0) }
{
    let [a, b, c, d] = first.to_array();
    let [e, _, _, _] = second.to_array();
    [a, b, c, d, e]
}

/// SHA1C of ARM: A, B, C and D after four rounds with Ch. The first operand has A, B, C and D before them, lane 0 of the
/// second E, and the third four words, with their constants added.
pub fn sha1c(first: u32x4, second: u32x4, wk: u32x4) -> u32x4
    ensures { (k : ℕ) (w : List ℕ) → AreSums wk w k
        → result ≡ first_four (four_rounds S1.ch k (with_e first (slice_index second 0)) w) }
{
    vector_for_arm(choose_four(variables_for_arm(first, second), wk.to_array()))
}

/// SHA1P of ARM: the same with Parity.
pub fn sha1p(first: u32x4, second: u32x4, wk: u32x4) -> u32x4
    ensures { (k : ℕ) (w : List ℕ) → AreSums wk w k
        → result ≡ first_four (four_rounds S1.parity k (with_e first (slice_index second 0)) w) }
{
    vector_for_arm(parity_four(variables_for_arm(first, second), wk.to_array()))
}

/// SHA1M of ARM: the same with Maj.
pub fn sha1m(first: u32x4, second: u32x4, wk: u32x4) -> u32x4
    ensures { (k : ℕ) (w : List ℕ) → AreSums wk w k
        → result ≡ first_four (four_rounds S1.maj k (with_e first (slice_index second 0)) w) }
{
    vector_for_arm(majority_four(variables_for_arm(first, second), wk.to_array()))
}

/// SHA1H of ARM: lane 0, rotated by 30 bits, as A becomes E in four rounds. The other lanes are zeros.
pub fn sha1h(first: u32x4) -> u32x4
    ensures { result ≡ rotate_left w32 (slice_index first 0) 30 ∷ replicate 3 0 }
{
    let [a, _, _, _] = first.to_array();
    u32x4::from_array([a.rotate_left(30), 0, 0, 0])
}

/// SHA1SU0 of ARM: the exclusive or of what SHA1MSG1 gives and the third operand.
pub fn sha1su0(first: u32x4, second: u32x4, third: u32x4) -> u32x4
    ensures { result ≡ xor (xor_two_on first second) third }
{
    let [w0, w1, w2, w3] = first.to_array();
    let [w4, w5, _, _] = second.to_array();
    let [w8, w9, w10, w11] = third.to_array();
    u32x4::from_array([w2 ^ w0 ^ w8, w3 ^ w1 ^ w9, w4 ^ w2 ^ w10, w5 ^ w3 ^ w11])
}

/// The last word of SHA1SU1. The first one, which goes into it rotated, is `t` before its rotation.
fn last_word(x: u32, t: u32) -> u32
    ensures { result ≡ rotate_left w32 (bit_xor x (rotate_left w32 t 1)) 1 }
{
    x.rotate_left(1) ^ t.rotate_left(2)
}

/// SHA1SU1 of ARM: as SHA1MSG2.
pub fn sha1su1(first: u32x4, second: u32x4) -> u32x4
    ensures { result ≡ rotated first second }
{
    let [x0, x1, x2, x3] = first.to_array();
    let [_, w13, w14, w15] = second.to_array();
    let (t0, t1, t2) = (x0 ^ w13, x1 ^ w14, x2 ^ w15);
    u32x4::from_array([
        t0.rotate_left(1),
        t1.rotate_left(1),
        t2.rotate_left(1),
        last_word(x3, t0),
    ])
}
