//! One to eight messages hashed side by side: the examples of FIPS 180-4 in each lane, and lengths near the borders of
//! blocks, with bytes before and after the parts, compared with the crates `sha1` and `sha2`.
use crate::examples::{EXAMPLES, Example, FUNCTIONS, SALTS, expected_digest};
use fixtures::{data, lay, same};
use sha_lanes::{sha1, sha224, sha256, sha384, sha512};
use std::alloc::{AllocError, Global};
use std::test::Fail;
use verity_hash::Algorithm;

/// The first `count` digests, one after another.
fn joined<const N: usize>(
    alloc: Global,
    digests: &[[u8; N]; 8],
    count: usize,
) -> Result<Vec<u8>, AllocError> {
    let mut all = Vec::new(alloc);
    for digest in digests.iter().take(count) {
        all.extend_from_slice(digest.as_slice())?;
    }
    Ok(all)
}

/// The bytes before and after each part.
type Around<'a> = (&'a [u8], &'a [u8]);

/// The digests of `count` parts of one length, with these bytes around each, one after another.
fn side_by_side(
    alloc: Global,
    function: Algorithm,
    (before, after): Around<'_>,
    parts: &[u8],
    len: usize,
    count: usize,
) -> Result<Vec<u8>, Fail> {
    if count == 0 || count > 8 || parts.len() != count.saturating_mul(len) {
        return Err("one to eight parts".into());
    }
    let all = match function {
        Algorithm::Sha1 => joined(alloc, &sha1(before, parts, len, count, after), count),
        Algorithm::Sha224 => joined(alloc, &sha224(before, parts, len, count, after), count),
        Algorithm::Sha256 => joined(alloc, &sha256(before, parts, len, count, after), count),
        Algorithm::Sha384 => joined(alloc, &sha384(before, parts, len, count, after), count),
        Algorithm::Sha512 => joined(alloc, &sha512(before, parts, len, count, after), count),
    };
    Ok(all?)
}

/// The digests of `count` parts: the example's message is part `j`, and other bytes are the rest.
fn hashed_as_part(
    alloc: Global,
    example: &Example,
    j: usize,
    count: usize,
) -> Result<Vec<u8>, Fail> {
    let len = example.message.len();
    let mut parts = data(alloc, len.saturating_mul(count))?;
    lay(&mut parts, &[(len.saturating_mul(j), example.message)]);
    let parts = parts.as_slice();
    side_by_side(alloc, example.function, (b"", b""), parts, len, count)
}

/// Compares the digest of the example's message, as part `j` of `count`.
fn compare_digits(alloc: Global, example: &Example, j: usize, count: usize) -> Result<(), Fail> {
    let all = hashed_as_part(alloc, example, j, count)?;
    let size = example.digits.len() / 2;
    let from = size.saturating_mul(j);
    let digest = all.get(from..from.saturating_add(size)).unwrap_or(&[]);
    let found = hex::encode(alloc, digest)?;
    same(
        format_args!("{j} of {count}"),
        found.as_str(),
        example.digits,
    )
}

#[test]
fn the_standards_examples_in_each_lane(rt: HostRuntime) -> Result<(), Fail> {
    for example in &EXAMPLES {
        for count in 1..=8usize {
            for j in 0..count {
                compare_digits(rt.alloc(), example, j, count)?;
            }
        }
    }
    Ok(())
}

/// Lengths of parts, and of whole messages, near the borders of blocks of 64 and of 128 bytes and of their padding.
const BORDERS: [usize; 13] = [0, 1, 54, 55, 56, 63, 64, 111, 112, 119, 120, 127, 128];

/// The digests by `sha1` or `sha2` of `count` parts of one length, with these bytes around each, one after another.
fn one_by_one(
    alloc: Global,
    function: Algorithm,
    (before, after): Around<'_>,
    parts: &[u8],
    len: usize,
    count: usize,
) -> Result<Vec<u8>, AllocError> {
    let mut all = Vec::new(alloc);
    for j in 0..count {
        let from = len.saturating_mul(j);
        let part = parts.get(from..from.saturating_add(len)).unwrap_or(&[]);
        let digest = expected_digest(alloc, function, (before, part, after))?;
        all.extend_from_slice(digest.as_slice())?;
    }
    Ok(all)
}

/// Compares the digests of this many parts by a function, with bytes around each, with those of `sha1` or `sha2`.
fn compare_parts(
    alloc: Global,
    function: Algorithm,
    around: Around<'_>,
    len: usize,
    count: usize,
) -> Result<(), Fail> {
    let parts = data(alloc, len.saturating_mul(count))?;
    let expected = one_by_one(alloc, function, around, parts.as_slice(), len, count)?;
    let all = side_by_side(alloc, function, around, parts.as_slice(), len, count)?;
    let at = (function, around.0.len(), around.1.len(), len, count);
    same(format_args!("{at:?}"), all, expected)
}

/// Compares the digests of this many parts by each function with those of `sha1` or `sha2`, with the salt before the
/// parts, after them, and both.
fn compare_functions(alloc: Global, salt: &[u8], len: usize, count: usize) -> Result<(), Fail> {
    for function in &FUNCTIONS {
        for around in &[(salt, &salt[..0]), (&salt[..0], salt), (salt, salt)] {
            compare_parts(alloc, *function, *around, len, count)?;
        }
    }
    Ok(())
}

/// Takes a salt with each border, as the length of the parts and as that of whole messages after 256 bytes. The number
/// of messages is another one with each turn, from one to eight.
fn try_borders(alloc: Global, salt: &[u8], turn: &mut usize) -> Result<(), Fail> {
    for &border in &BORDERS {
        let message = border.saturating_add(256).saturating_sub(salt.len());
        for &len in &[border, message] {
            let count = (*turn % 8).saturating_add(1);
            compare_functions(alloc, salt, len, count)?;
            *turn = turn.saturating_add(3);
        }
    }
    Ok(())
}

#[test]
fn lengths_round_the_borders_of_blocks(rt: HostRuntime) -> Result<(), Fail> {
    let salts = data(rt.alloc(), 269)?;
    let mut turn = 0usize;
    for &salt_len in &SALTS {
        let salt = salts.get(13..salt_len.saturating_add(13)).ok_or("a salt")?;
        try_borders(rt.alloc(), salt, &mut turn)?;
    }
    Ok(())
}
