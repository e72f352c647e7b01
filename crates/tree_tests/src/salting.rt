//! Salted hashes: published vectors, and those of one to eight blocks beside `sha1` and `sha2` over what is hashed for
//! each.
use crate::cases::salted_shape;
use fixtures::{Shape, data, same};
use std::alloc::{AllocError, Global};
use std::test::Fail;
use verity_hash::{Algorithm, Digest, SaltRule, salted, salted_rows};

/// The message `abc`, as a salt and a block, and its digest.
type Vector = (
    Algorithm,
    SaltRule,
    &'static [u8],
    &'static [u8],
    &'static str,
);

/// The examples of one block on NIST's page on FIPS 180-4.
const VECTORS: [Vector; 7] = [
    (Algorithm::Sha1, SaltRule::Before, b"a", b"bc", SHA1_ABC),
    (
        Algorithm::Sha1,
        SaltRule::PaddedBefore,
        b"",
        b"abc",
        SHA1_ABC,
    ),
    (
        Algorithm::Sha224,
        SaltRule::Before,
        b"a",
        b"bc",
        "23097d223405d8228642a477bda255b32aadbce4bda0b3f7e36c9da7",
    ),
    (Algorithm::Sha256, SaltRule::After, b"c", b"ab", SHA256_ABC),
    (Algorithm::Sha256, SaltRule::Before, b"a", b"bc", SHA256_ABC),
    (
        Algorithm::Sha384,
        SaltRule::After,
        b"c",
        b"ab",
        "cb00753f45a35e8bb5a03d699ac65007272c32ab0eded1631a8b605a43ff5bed\
         8086072ba1e7cc2358baeca134c825a7",
    ),
    (
        Algorithm::Sha512,
        SaltRule::Before,
        b"ab",
        b"c",
        "ddaf35a193617abacc417349ae20413112e6fa4e89a97ea20a9eeee64b55d39a\
         2192992a274fc1a836ba3c23a3feebbd454d4423643ce80e2a9ac94fa54ca49f",
    ),
];

const SHA1_ABC: &str = "a9993e364706816aba3e25717850c26c9cd0d89d";

const SHA256_ABC: &str = "ba7816bf8f01cfea414140de5dae2223b00361a396177a9cb410ff61f20015ad";

/// The digits of the hash of the salt and the block.
fn digits_of(alloc: Global, vector: &Vector) -> Result<String, AllocError> {
    let (algorithm, rule, salt, block, _) = *vector;
    hex::encode(alloc, salted(algorithm, rule, salt, block).as_bytes())
}

#[test]
fn all_functions_hash(rt: HostRuntime) -> Result<(), Fail> {
    for vector in &VECTORS {
        let (text, digits) = (digits_of(rt.alloc(), vector)?, vector.4);
        same(digits, text.as_str(), digits)?;
    }
    Ok(())
}

const ALGORITHMS: [Algorithm; 5] = [
    Algorithm::Sha256,
    Algorithm::Sha512,
    Algorithm::Sha1,
    Algorithm::Sha224,
    Algorithm::Sha384,
];

const RULES: [SaltRule; 3] = [SaltRule::Before, SaltRule::After, SaltRule::PaddedBefore];

/// Lengths of salts near multiples of the input block.
const SALTS: [usize; 10] = [0, 1, 32, 63, 64, 65, 127, 128, 129, 255];

/// Sizes of blocks: none, a few bytes, near the end of the last input block, and usual ones. There is another number of
/// blocks with each, from one to eight.
const SIZES: [usize; 12] = [0, 1, 55, 56, 63, 64, 111, 112, 119, 128, 512, 1024];

/// Whether a digest is that of the plain list for a block.
fn is_right(alloc: Global, shape: &Shape, block: &[u8], digest: &Digest) -> Result<bool, Fail> {
    let expected = shape.digest(alloc, block)?;
    Ok(digest.as_bytes() == expected.as_slice())
}

/// An error unless each of `count` blocks of a size has the salted hash of the plain list.
fn rows_are_hashed(
    alloc: Global,
    rule: SaltRule,
    salt: &[u8],
    shape: &Shape,
    size: usize,
    count: usize,
) -> Result<(), Fail> {
    let rows = data(alloc, size.saturating_mul(count))?;
    if count == 0 || count > 8 || rows.len() != size.saturating_mul(count) {
        return Err("one to eight rows".into());
    }
    let digests = salted_rows(shape.algorithm, rule, salt, rows.as_slice(), size, count);
    for (r, digest) in digests.iter().take(count).enumerate() {
        let from = r.saturating_mul(size);
        let block = rows.get(from..from.saturating_add(size)).unwrap_or(&[]);
        let right = is_right(alloc, shape, block, digest)?;
        let at = format_args!("block {r} of {count} of {size} bytes, {shape:?}");
        same(at, right, true)?;
    }
    Ok(())
}

/// An error unless the rows of each salt and size have the right hashes by a function and a rule.
fn all_are_hashed(alloc: Global, algorithm: Algorithm, rule: SaltRule) -> Result<(), Fail> {
    let salts = data(alloc, 255)?;
    for (turn, len) in SALTS.iter().enumerate() {
        let salt = salts.get(..*len).ok_or("a salt")?;
        let shape = salted_shape(alloc, algorithm, rule, salt)?;
        for (i, size) in SIZES.iter().enumerate() {
            let count = (turn.saturating_add(i) % 8).saturating_add(1);
            rows_are_hashed(alloc, rule, salt, &shape, *size, count)?;
        }
    }
    Ok(())
}

#[test]
fn each_of_one_to_eight_blocks_has_its_salted_hash(rt: HostRuntime) -> Result<(), Fail> {
    for algorithm in &ALGORITHMS {
        for rule in &RULES {
            all_are_hashed(rt.alloc(), *algorithm, *rule)?;
        }
    }
    Ok(())
}
