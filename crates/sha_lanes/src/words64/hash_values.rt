//! Hash values: the first ones (FIPS 180-4, 5.3), and what a digest takes of the last one (6.4 and 6.5).
ghost use Rattle.std.specs.Prelude.{◌≡◌, ◌<◌, take};
ghost use Rattle.sha2.specs.Sha512 as S512;
ghost use Rattle.sha_lanes.specs.Lanes.{lane};

use std::simd::prelude::*;

/// The initial hash value of SHA-384 (5.3.4).
pub(crate) const INITIAL_HASH_384: [u64; 8] = [
    0xcbbb9d5dc1059ed8,
    0x629a292a367cd507,
    0x9159015a3070dd17,
    0x152fecd8f70e5939,
    0x67332667ffc00b31,
    0x8eb44a8768581511,
    0xdb0c2e0d64f98fa7,
    0x47b5481dbefa4fa4,
];

/// The initial hash value of SHA-512 (5.3.5).
pub(crate) const INITIAL_HASH_512: [u64; 8] = [
    0x6a09e667f3bcc908,
    0xbb67ae8584caa73b,
    0x3c6ef372fe94f82b,
    0xa54ff53a5f1d36f1,
    0x510e527fade682d1,
    0x9b05688c2b3e6c1f,
    0x1f83d9abfb41bd6b,
    0x5be0cd19137e2179,
];

/// The words of lane `j`.
pub(crate) fn words_of(state: &[u64x4; 8], j: usize) -> [u64; 8]
    requires { j < 4 }
    ensures { result ≡ lane state.now j }
{
    let mut words = [0; 8];
    for i in 0..8 {
        words[i] = state[i].to_array()[j];
    }
    words
}

/// The bytes of a hash value.
pub(crate) fn hash_bytes(words: &[u64; 8]) -> [u8; 64]
    ensures { result ≡ S512.digest_bytes words.now 8 }
{
    let mut bytes = [0u8; 64];
    for i in 0..8 {
        bytes[8 * i..8 * i + 8].copy_from_slice(&words[i].to_be_bytes());
    }
    bytes
}

/// The leftmost 384 bits (6.5).
pub(crate) fn leftmost_384(bytes: &[u8; 64]) -> [u8; 48]
    ensures { result ≡ take 48 bytes.now }
{
    let mut digest = [0u8; 48];
    digest.copy_from_slice(&bytes[..48]);
    digest
}
