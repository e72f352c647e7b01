//! The salted hash of a block.
ghost use Rattle.std.specs.Prelude.{◌≡◌, ◌++◌};
ghost use Rattle.verity_hash.specs.Hashing.{hash_of, salted_hash};

use crate::digest::digest_of;
use crate::{Algorithm, Digest};

/// Where the salt of a tree goes.
#[derive(Clone, Copy, Debug, PartialEq, Eq)]
pub enum SaltRule {
    /// The salt, then the block: dm-verity's hash type 1 (Linux kernel, dm-verity page, "Construction Parameters").
    Before,
    /// The block, then the salt: dm-verity's hash type 0 (the same page).
    After,
    /// The salt, padded with zeros to whole input blocks of the hash function, then the block. An empty salt adds
    /// nothing (Linux kernel, fs-verity page, "Merkle tree").
    PaddedBefore,
}

/// Zeros to pad a salt with, one for each byte of the longest input block.
pub(crate) const ZEROS: [u8; 128] = [0; 128];

/// The hash of a message in three pieces.
fn hash_pieces(algorithm: Algorithm, first: &[u8], second: &[u8], third: &[u8]) -> Digest
    ensures { result ≡ hash_of algorithm (first.now ++ second.now ++ third.now) }
{
    match algorithm {
        Algorithm::Sha256 => digest_of(&sha_lanes::sha256_alone(first, second, third)),
        Algorithm::Sha512 => digest_of(&sha_lanes::sha512_alone(first, second, third)),
        Algorithm::Sha1 => digest_of(&sha_lanes::sha1_alone(first, second, third)),
        Algorithm::Sha224 => digest_of(&sha_lanes::sha224_alone(first, second, third)),
        Algorithm::Sha384 => digest_of(&sha_lanes::sha384_alone(first, second, third)),
    }
}

/// The salted hash of a block of any length, with a salt of any length. The same rule serves data blocks and hash
/// blocks (Linux kernel, dm-verity page, "Hash Tree"; fs-verity page, "Merkle tree").
pub fn salted(algorithm: Algorithm, rule: SaltRule, salt: &[u8], block: &[u8]) -> Digest
    ensures { result ≡ salted_hash algorithm rule salt.now block.now }
{
    match rule {
        SaltRule::Before => hash_pieces(algorithm, salt, block, &[]),
        SaltRule::After => hash_pieces(algorithm, &[], block, salt),
        SaltRule::PaddedBefore => {
            let input_block = algorithm.input_block();
            let padding = (input_block - salt.len() % input_block) % input_block;
            hash_pieces(algorithm, salt, &ZEROS[..padding], block)
        }
    }
}
