//! One message hashed alone, in three pieces: the examples of FIPS 180-4 cut at each pair of places, and a long one;
//! and lengths near the borders of blocks and of the groups of 512 bytes that are hashed at a time, and messages of
//! zeros, compared with the crates `sha1` and `sha2`.
use crate::examples::{EXAMPLES, FUNCTIONS, Message, SALTS, expected_digest};
use fixtures::{data, flip_bit, same};
use sha_lanes::{sha1_alone, sha224_alone, sha256_alone, sha384_alone, sha512_alone};
use std::alloc::{AllocError, Global};
use std::test::Fail;
use verity_hash::Algorithm;

/// The digest of a message.
fn hashed_alone(
    alloc: Global,
    function: Algorithm,
    (first, second, third): Message<'_>,
) -> Result<Vec<u8>, AllocError> {
    match function {
        Algorithm::Sha1 => Vec::from_slice(alloc, &sha1_alone(first, second, third)),
        Algorithm::Sha224 => Vec::from_slice(alloc, &sha224_alone(first, second, third)),
        Algorithm::Sha256 => Vec::from_slice(alloc, &sha256_alone(first, second, third)),
        Algorithm::Sha384 => Vec::from_slice(alloc, &sha384_alone(first, second, third)),
        Algorithm::Sha512 => Vec::from_slice(alloc, &sha512_alone(first, second, third)),
    }
}

/// Some bytes, cut at two places.
fn cut(bytes: &[u8], from: usize, to: usize) -> Message<'_> {
    let (rest, third) = bytes.split_at(to.min(bytes.len()));
    let (first, second) = rest.split_at(from.min(rest.len()));
    (first, second, third)
}

/// Compares the digest of some bytes, cut at two places, with what is expected.
fn compare_digits(
    alloc: Global,
    function: Algorithm,
    bytes: &[u8],
    places: (usize, usize),
    digits: &str,
) -> Result<(), Fail> {
    let digest = hashed_alone(alloc, function, cut(bytes, places.0, places.1))?;
    let found = hex::encode(alloc, digest)?;
    same(
        format_args!("{function:?}, {places:?}"),
        found.as_str(),
        digits,
    )
}

#[test]
fn the_standards_examples_cut_at_each_pair_of_places(rt: HostRuntime) -> Result<(), Fail> {
    for example in &EXAMPLES {
        let (message, digits) = (example.message, example.digits);
        for to in 0..=message.len() {
            for from in 0..=to {
                compare_digits(rt.alloc(), example.function, message, (from, to), digits)?;
            }
        }
    }
    Ok(())
}

/// The digests of a million letters "a", the long example of FIPS 180-2 and of its change notice on SHA-224.
const MILLION: [(Algorithm, &str); 5] = [
    (Algorithm::Sha1, "34aa973cd4c4daa4f61eeb2bdbad27316534016f"),
    (
        Algorithm::Sha224,
        "20794655980c91d8bbb4c1ea97618a4bf03f42581948b2ee4ee7ad67",
    ),
    (
        Algorithm::Sha256,
        "cdc76e5c9914fb9281a1c7e284d73e67f1809a48a497200e046d39ccc7112cd0",
    ),
    (
        Algorithm::Sha384,
        "9d0e1809716474cb086e834e310a4a1ced149e9c00f248527972cec5704c2a5b07b8b3dc38ecc4ebae97ddd87f3d8985",
    ),
    (
        Algorithm::Sha512,
        "e718483d0ce769644e2e42c7bc15b4638e1f98b13b2044285632a803afa973ebde0ff244877ea60a4cb0432ce577c31beb009c5c2c49aa2e4eadb217ad8cc09b",
    ),
];

/// Where they are cut, each time within blocks: nearly all are in the second piece, or each piece is long.
const PLACES: [(usize, usize); 2] = [(1, 999_999), (333_333, 666_667)];

#[test]
fn a_million_letters_have_their_digest(rt: HostRuntime) -> Result<(), Fail> {
    let letters = vec![in rt.alloc(); b'a'; 1_000_000]?;
    for &(function, digits) in &MILLION {
        for places in &PLACES {
            compare_digits(rt.alloc(), function, letters.as_slice(), *places, digits)?;
        }
    }
    Ok(())
}

/// Lengths near the borders of blocks of 64 and of 128 bytes and of their padding, and of groups of 512 bytes.
const BORDERS: [usize; 26] = [
    0, 1, 55, 56, 63, 64, 111, 112, 119, 120, 127, 128, 447, 448, 495, 496, 503, 504, 511, 512,
    513, 1015, 1016, 1023, 1024, 1025,
];

/// Compares the digests of some bytes by each function with those of `sha1` or `sha2`, with the salt before the bytes,
/// after them, and both. The bytes are the first piece, the second or the third.
fn compare_functions(alloc: Global, salt: &[u8], bytes: &[u8]) -> Result<(), Fail> {
    let none = &salt[..0];
    let messages = [
        (salt, bytes, none),
        (none, salt, bytes),
        (bytes, salt, none),
        (none, bytes, salt),
        (salt, bytes, salt),
    ];
    for function in &FUNCTIONS {
        for message in &messages {
            let expected = expected_digest(alloc, *function, *message)?;
            let found = hashed_alone(alloc, *function, *message)?;
            same(format_args!("{function:?}, {message:?}"), found, expected)?;
        }
    }
    Ok(())
}

/// Takes a salt with each border, as the length of the bytes and as that of whole messages, with one salt or two, after
/// 512 bytes.
fn try_borders(alloc: Global, salt: &[u8], all: &[u8]) -> Result<(), Fail> {
    for &border in &BORDERS {
        let one = border.saturating_add(512).saturating_sub(salt.len());
        for &len in &[border, one, one.saturating_sub(salt.len())] {
            let bytes = all.get(5..len.saturating_add(5)).ok_or("bytes")?;
            compare_functions(alloc, salt, bytes)?;
        }
    }
    Ok(())
}

#[test]
fn lengths_round_the_borders_of_blocks_and_groups(rt: HostRuntime) -> Result<(), Fail> {
    let all = data(rt.alloc(), 1550)?;
    for &salt_len in &SALTS {
        let salt = all.get(13..salt_len.saturating_add(13)).ok_or("a salt")?;
        try_borders(rt.alloc(), salt, all.as_slice())?;
    }
    Ok(())
}

/// The first pair of places at which some bytes are cut and have another digest by a function than by `sha1` or `sha2`.
fn wrong_pair(
    alloc: Global,
    function: Algorithm,
    bytes: &[u8],
    pairs: &[(usize, usize)],
) -> Result<Option<(usize, usize)>, AllocError> {
    let expected = expected_digest(alloc, function, cut(bytes, 0, 0))?;
    for (from, to) in pairs {
        if hashed_alone(alloc, function, cut(bytes, *from, *to))? != expected {
            return Ok(Some((*from, *to)));
        }
    }
    Ok(None)
}

/// Zeros, and from one place to another bytes that aren't.
fn zeros_but(alloc: Global, len: usize, from: usize, to: usize) -> Result<Vec<u8>, AllocError> {
    let mut bytes = vec![in alloc; 0u8; from]?;
    bytes.resize(to, 0xa5)?;
    bytes.resize(len, 0)?;
    Ok(bytes)
}

/// Lengths of messages.
const LENGTHS: [usize; 11] = [
    512, 513, 767, 1000, 1024, 1025, 1536, 2048, 3001, 4096, 5000,
];

/// Which bytes aren't zeros: none; the first 1000, or all after them; or one, the last or the first of a group.
const OTHERS: [(usize, usize); 9] = [
    (0, 0),
    (0, 1000),
    (1000, 5000),
    (0, 1),
    (511, 512),
    (512, 513),
    (1023, 1024),
    (1024, 1025),
    (2048, 2049),
];

/// Where a message of a length is cut: into a salt and a block, either of which comes first, a block between two salts,
/// and a salt between two halves.
fn salted_places(len: usize) -> [(usize, usize); 9] {
    let middle = len / 2;
    [
        (0, len),
        (1, len),
        (64, len),
        (255, len),
        (0, len.saturating_sub(32)),
        (0, len.saturating_sub(256)),
        (32, len.saturating_sub(1)),
        (256, len.saturating_sub(64)),
        (middle, middle.saturating_add(255)),
    ]
}

/// The first function and pair of places with which a message has another digest than by `sha1` or `sha2`.
type Wrong = (Algorithm, (usize, usize));

fn wrong_function(
    alloc: Global,
    bytes: &[u8],
    pairs: &[(usize, usize)],
) -> Result<Option<Wrong>, AllocError> {
    for function in &FUNCTIONS {
        if let Some(pair) = wrong_pair(alloc, *function, bytes, pairs)? {
            return Ok(Some((*function, pair)));
        }
    }
    Ok(None)
}

/// The first message of a length that goes wrong, by the bytes that aren't zeros. In one more message than those above
/// it is the middle byte.
fn wrong_zeros(alloc: Global, len: usize) -> Result<Option<(usize, usize, Wrong)>, AllocError> {
    let middle = len / 2;
    let mut others = Vec::from_slice(alloc, &OTHERS)?;
    others.push((middle, middle.saturating_add(1)))?;
    for &(from, to) in others.iter() {
        let bytes = zeros_but(alloc, len, from, to)?;
        let pairs = salted_places(len);
        if let Some(wrong) = wrong_function(alloc, bytes.as_slice(), &pairs)? {
            return Ok(Some((from, to, wrong)));
        }
    }
    Ok(None)
}

#[test]
fn zeros_have_their_digest(rt: HostRuntime) -> Result<(), Fail> {
    for &len in &LENGTHS {
        same(len, wrong_zeros(rt.alloc(), len)?, None)?;
    }
    Ok(())
}

/// The first place in 640 zeros where one bit makes another digest than by `sha1` or `sha2`, with the function. They
/// are all in the first piece, the second or the third.
fn wrong_bit(alloc: Global) -> Result<Option<(usize, Wrong)>, AllocError> {
    let mut bytes = vec![in alloc; 0u8; 640]?;
    for at in 0..640usize {
        let bit = at.saturating_mul(8).saturating_add(at % 8);
        flip_bit(&mut bytes, bit);
        let pairs = [(640, 640), (0, 640), (0, 0)];
        if let Some(wrong) = wrong_function(alloc, bytes.as_slice(), &pairs)? {
            return Ok(Some((at, wrong)));
        }
        flip_bit(&mut bytes, bit);
    }
    Ok(None)
}

#[test]
fn each_byte_that_is_not_zero_counts(rt: HostRuntime) -> Result<(), Fail> {
    same("a bit", wrong_bit(rt.alloc())?, None)
}
