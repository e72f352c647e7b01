//! Hash values: the first ones (FIPS 180-4, 5.3), and what a digest takes of the last one (6.2 and 6.3).
ghost use Rattle.std.specs.Prelude.{◌≡◌, ◌*◌, ◌<◌, length, take};
ghost use Rattle.sha2.specs.Sha256 as S256;
ghost use Rattle.sha_lanes.specs.Lanes.{lane};

use std::simd::prelude::*;

/// The initial hash value of SHA-224 (5.3.2).
pub(crate) const INITIAL_HASH_224: [u32; 8] = [
    0xc1059ed8, 0x367cd507, 0x3070dd17, 0xf70e5939, 0xffc00b31, 0x68581511, 0x64f98fa7, 0xbefa4fa4,
];

/// The initial hash value of SHA-256 (5.3.3).
pub(crate) const INITIAL_HASH_256: [u32; 8] = [
    0x6a09e667, 0xbb67ae85, 0x3c6ef372, 0xa54ff53a, 0x510e527f, 0x9b05688c, 0x1f83d9ab, 0x5be0cd19,
];

/// The words of lane `j`.
pub(crate) fn words_of<const N: usize>(state: &[u32x8; N], j: usize) -> [u32; N]
    requires { j < 8 }
    ensures { result ≡ lane state.now j }
{
    let mut words = [0; N];
    for i in 0..N {
        words[i] = state[i].to_array()[j];
    }
    words
}

/// Sets `bytes` to those of a hash value.
pub(crate) fn put_bytes(bytes: &mut [u8], words: &[u32])
    requires { length bytes.old ≡ 4 * length words.now }
    ensures { bytes.new ≡ S256.digest_bytes words.now (length words.now) }
{
    for i in 0..words.len() {
        bytes[4 * i..4 * i + 4].copy_from_slice(&words[i].to_be_bytes());
    }
}

/// The bytes of a hash value.
pub(crate) fn hash_bytes(words: &[u32; 8]) -> [u8; 32]
    ensures { result ≡ S256.digest_bytes words.now 8 }
{
    let mut bytes = [0u8; 32];
    put_bytes(&mut bytes, words);
    bytes
}

/// The leftmost 224 bits (6.3).
pub(crate) fn leftmost_224(bytes: &[u8; 32]) -> [u8; 28]
    ensures { result ≡ take 28 bytes.now }
{
    let mut digest = [0u8; 28];
    digest.copy_from_slice(&bytes[..28]);
    digest
}
