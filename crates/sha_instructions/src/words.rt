//! Words of a block, and constants, four in a vector.
ghost use Rattle.std.specs.Prelude.{◌≡◌, ◌+◌, ◌<◌, ◌≤◌, length};
ghost use Rattle.sha2.specs.Sha256 as S256;
ghost use Rattle.sha_instructions.specs.Vectors.{add, four, four_at, xor};

use std::simd::prelude::*;

/// K 0, …, K 63 (4.2.2).
const K: [u32; 64] = [
    0x428a2f98, 0x71374491, 0xb5c0fbcf, 0xe9b5dba5, 0x3956c25b, 0x59f111f1, 0x923f82a4, 0xab1c5ed5,
    0xd807aa98, 0x12835b01, 0x243185be, 0x550c7dc3, 0x72be5d74, 0x80deb1fe, 0x9bdc06a7, 0xc19bf174,
    0xe49b69c1, 0xefbe4786, 0x0fc19dc6, 0x240ca1cc, 0x2de92c6f, 0x4a7484aa, 0x5cb0a9dc, 0x76f988da,
    0x983e5152, 0xa831c66d, 0xb00327c8, 0xbf597fc7, 0xc6e00bf3, 0xd5a79147, 0x06ca6351, 0x14292967,
    0x27b70a85, 0x2e1b2138, 0x4d2c6dfc, 0x53380d13, 0x650a7354, 0x766a0abb, 0x81c2c92e, 0x92722c85,
    0xa2bfe8a1, 0xa81a664b, 0xc24b8b70, 0xc76c51a3, 0xd192e819, 0xd6990624, 0xf40e3585, 0x106aa070,
    0x19a4c116, 0x1e376c08, 0x2748774c, 0x34b0bcb5, 0x391c0cb3, 0x4ed8aa4a, 0x5b9cca4f, 0x682e6ff3,
    0x748f82ee, 0x78a5636f, 0x84c87814, 0x8cc70208, 0x90befffa, 0xa4506ceb, 0xbef9a3f7, 0xc67178f2,
];

/// The word at byte `i`.
#[inline(always)]
fn word_at(bytes: &[u8], i: usize) -> u32
    requires { i + 4 ≤ length bytes.now }
    ensures { result ≡ S256.word_at bytes.now i }
{
    u32::from_be_bytes([bytes[i], bytes[i + 1], bytes[i + 2], bytes[i + 3]])
}

/// The four words from byte `i` on.
#[inline(always)]
pub(crate) fn four_at(bytes: &[u8], i: usize) -> u32x4
    requires { i + 16 ≤ length bytes.now }
    ensures { result ≡ four_at bytes.now i }
{
    u32x4::from_array([
        word_at(bytes, i),
        word_at(bytes, i + 4),
        word_at(bytes, i + 8),
        word_at(bytes, i + 12),
    ])
}

/// Lane by lane, the sum.
#[inline(always)]
pub(crate) fn add(x: u32x4, y: u32x4) -> u32x4
    ensures { result ≡ add x y }
{
    x + y
}

/// Lane by lane, the exclusive or.
#[inline(always)]
pub(crate) fn xor(x: u32x4, y: u32x4) -> u32x4
    ensures { result ≡ xor x y }
{
    x ^ y
}

/// Four words of SHA-256, and the constants of their rounds, from round `t` on.
#[inline(always)]
pub(crate) fn add_constants_256(w: u32x4, t: usize) -> u32x4
    requires { t + 4 ≤ 64 }
    ensures { result ≡ add w (four S256.round_constants t) }
{
    add(w, u32x4::from_array([K[t], K[t + 1], K[t + 2], K[t + 3]]))
}
