//! The salted hashes of one to eight blocks, which stand in rows of one size.
ghost use Rattle.std.specs.Prelude.{◌≡◌, ℕ, ◌+◌, ◌*◌, ◌<◌, ◌≤◌, ◌++◌, [], length, slice_index_or};
ghost use Rattle.std.specs.Fork.{slice_chunk};
ghost use Rattle.verity_hash.specs.Hashing.{hash_of, salted_hash};
ghost use Rattle.verity_hash.specs.declared.salting.SaltRule.TheVariants.{PaddedBefore};

use crate::digest::digest_of;
use crate::salting::ZEROS;
use crate::{Algorithm, Digest, SaltRule, salted};

/// Row `r`.
fn row(rows: &[u8], size: usize, r: usize) -> &[u8]
    requires { r * size + size ≤ length rows.now }
    ensures { result.now ≡ slice_chunk rows.now size r }
{
    let from = r * size;
    &rows[from..from + size]
}

/// The salted hashes of `count` blocks, one after another.
fn one_by_one(
    algorithm: Algorithm,
    rule: SaltRule,
    salt: &[u8],
    rows: &[u8],
    size: usize,
    count: usize,
) -> [Digest; 8]
    requires whole { length rows.now ≡ count * size }
    requires most { count ≤ 8 }
    ensures { (r : ℕ) → r < count
        → slice_index_or result r [] ≡ salted_hash algorithm rule salt.now (slice_chunk rows.now size r) }
{
    let mut digests = [Digest::zeros(algorithm); 8];
    for r in 0..count {
        digests[r] = salted(algorithm, rule, salt, row(rows, size, r));
    }
    digests
}

/// Eight digests, from their bytes.
fn digests_of<const N: usize>(bytes: &[[u8; N]; 8]) -> [Digest; 8]
    requires some { 0 < N }
    requires most { N ≤ 64 }
    ensures { (r : ℕ) → r < 8 → slice_index_or result r [] ≡ slice_index_or bytes.now r [] }
{
    [
        digest_of(&bytes[0]),
        digest_of(&bytes[1]),
        digest_of(&bytes[2]),
        digest_of(&bytes[3]),
        digest_of(&bytes[4]),
        digest_of(&bytes[5]),
        digest_of(&bytes[6]),
        digest_of(&bytes[7]),
    ]
}

/// The hashes of `count` rows side by side, with the same bytes before each and after each.
fn side_by_side(
    algorithm: Algorithm,
    before: &[u8],
    rows: &[u8],
    size: usize,
    count: usize,
    after: &[u8],
) -> [Digest; 8]
    requires whole { length rows.now ≡ count * size }
    requires some { 0 < count }
    requires most { count ≤ 8 }
    ensures { (r : ℕ) → r < count → slice_index_or result r []
        ≡ hash_of algorithm (before.now ++ slice_chunk rows.now size r ++ after.now) }
{
    match algorithm {
        Algorithm::Sha256 => digests_of(&sha_lanes::sha256(before, rows, size, count, after)),
        Algorithm::Sha512 => digests_of(&sha_lanes::sha512(before, rows, size, count, after)),
        Algorithm::Sha1 => digests_of(&sha_lanes::sha1(before, rows, size, count, after)),
        Algorithm::Sha224 => digests_of(&sha_lanes::sha224(before, rows, size, count, after)),
        Algorithm::Sha384 => digests_of(&sha_lanes::sha384(before, rows, size, count, after)),
    }
}

/// The same after a salt that is padded with zeros to a whole input block. After a salt longer than an input block they
/// are hashed one by one.
fn after_padded_salt(
    algorithm: Algorithm,
    salt: &[u8],
    rows: &[u8],
    size: usize,
    count: usize,
) -> [Digest; 8]
    requires whole { length rows.now ≡ count * size }
    requires some { 0 < count }
    requires most { count ≤ 8 }
    ensures { (r : ℕ) → r < count → slice_index_or result r []
        ≡ salted_hash algorithm PaddedBefore salt.now (slice_chunk rows.now size r) }
{
    if salt.is_empty() {
        return side_by_side(algorithm, &[], rows, size, count, &[]);
    }
    let input_block = algorithm.input_block();
    if salt.len() > input_block {
        return one_by_one(algorithm, SaltRule::PaddedBefore, salt, rows, size, count);
    }
    let mut padded = ZEROS;
    padded[..salt.len()].copy_from_slice(salt);
    side_by_side(algorithm, &padded[..input_block], rows, size, count, &[])
}

/// The salted hashes of `count` blocks of `size` bytes each, one to eight, which stand one after another in `rows`:
/// each is what `salted` gives for its block. The digests after theirs count for nothing. Without SHA instructions they
/// are computed side by side, in much less time: any number of them by SHA-1, SHA-224 and SHA-256 takes as long as eight,
/// and by SHA-384 and SHA-512 one to four take half as long as five to eight. With SHA instructions they go two by two,
/// by SHA-384 and SHA-512 one by one. After a salt that is padded and longer than an input block they go one by one.
pub fn salted_rows(
    algorithm: Algorithm,
    rule: SaltRule,
    salt: &[u8],
    rows: &[u8],
    size: usize,
    count: usize,
) -> [Digest; 8]
    requires whole { length rows.now ≡ count * size }
    requires some { 0 < count }
    requires most { count ≤ 8 }
    ensures { (r : ℕ) → r < count
        → slice_index_or result r [] ≡ salted_hash algorithm rule salt.now (slice_chunk rows.now size r) }
{
    match rule {
        SaltRule::Before => side_by_side(algorithm, salt, rows, size, count, &[]),
        SaltRule::After => side_by_side(algorithm, &[], rows, size, count, salt),
        SaltRule::PaddedBefore => after_padded_salt(algorithm, salt, rows, size, count),
    }
}
