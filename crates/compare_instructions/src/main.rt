//! Compares each SHA instruction with its model on random operands, and digests that are made by them with those of the
//! crates `sha1` and `sha2`. The words are how many operands, and a number from which they are drawn. What differed is
//! printed, and how many times.
#![tactic(auto)]

use sha_instructions::models::{sha_1, sha_256, sha_512};
use sha_instructions::{
    instructions as i, sha_1 as by_sha_1, sha_256 as by_sha_256, sha_512 as by_sha_512,
};
use sha1::Sha1;
use sha2::{Digest, Sha256, Sha512};
use std::simd::prelude::*;
use std::{env, io};

/// The instructions, in the order in which they are compared.
const NAMES: [&str; 25] = [
    "sha1rnds4_0",
    "sha1rnds4_1",
    "sha1rnds4_2",
    "sha1rnds4_3",
    "sha1nexte",
    "sha1msg1",
    "sha1msg2",
    "sha1c",
    "sha1p",
    "sha1m",
    "sha1h",
    "sha1su0",
    "sha1su1",
    "sha256rnds2",
    "sha256msg1",
    "sha256msg2",
    "sha256h",
    "sha256h2",
    "sha256su0",
    "sha256su1",
    "sha512h",
    "sha512h2",
    "sha512su0",
    "sha512su1",
    "copy",
];

/// Digests, in that order too.
const DIGESTS: [&str; 5] = [
    "digests of SHA-1",
    "digests of SHA-1 side by side",
    "digests of SHA-256",
    "digests of SHA-256 side by side",
    "digests of SHA-512",
];

/// A random number after another (xorshift64*).
fn next(seed: &mut u64) -> u64 {
    let mut x = *seed;
    x ^= x >> 12;
    x ^= x << 25;
    x ^= x >> 27;
    *seed = x;
    x.wrapping_mul(0x2545F4914F6CDD1D)
}

/// A random word; one of eight is all zeros or all ones.
fn word(seed: &mut u64) -> u64 {
    match next(seed) >> 60 {
        0 => 0,
        1 => 0xffff_ffff_ffff_ffff,
        _ => next(seed),
    }
}

/// A random vector.
fn words(seed: &mut u64) -> u32x4 {
    u32x4::from_array([
        (word(seed) >> 32) as u32,
        (word(seed) >> 32) as u32,
        (word(seed) >> 32) as u32,
        (word(seed) >> 32) as u32,
    ])
}

/// The same of words of 64 bits.
fn long_words(seed: &mut u64) -> u64x2 {
    u64x2::from_array([word(seed), word(seed)])
}

fn differ(x: u32x4, y: u32x4) -> u64 {
    if x.to_array() == y.to_array() { 0 } else { 1 }
}

fn differ_64(x: u64x2, y: u64x2) -> u64 {
    if x.to_array() == y.to_array() { 0 } else { 1 }
}

/// How many times each instruction differs.
fn compared(count: u64, start: u64) -> [u64; 25] {
    let mut seed = start | 1;
    let mut wrong = [0u64; 25];
    for _ in 0..count {
        let (x, y, z) = (words(&mut seed), words(&mut seed), words(&mut seed));
        let (p, q, r) = (
            long_words(&mut seed),
            long_words(&mut seed),
            long_words(&mut seed),
        );
        let found = [
            differ(i::sha1rnds4_0(x, y), sha_1::sha1rnds4_0(x, y)),
            differ(i::sha1rnds4_1(x, y), sha_1::sha1rnds4_1(x, y)),
            differ(i::sha1rnds4_2(x, y), sha_1::sha1rnds4_2(x, y)),
            differ(i::sha1rnds4_3(x, y), sha_1::sha1rnds4_3(x, y)),
            differ(i::sha1nexte(x, y), sha_1::sha1nexte(x, y)),
            differ(i::sha1msg1(x, y), sha_1::sha1msg1(x, y)),
            differ(i::sha1msg2(x, y), sha_1::sha1msg2(x, y)),
            differ(i::sha1c(x, y, z), sha_1::sha1c(x, y, z)),
            differ(i::sha1p(x, y, z), sha_1::sha1p(x, y, z)),
            differ(i::sha1m(x, y, z), sha_1::sha1m(x, y, z)),
            differ(i::sha1h(x), sha_1::sha1h(x)),
            differ(i::sha1su0(x, y, z), sha_1::sha1su0(x, y, z)),
            differ(i::sha1su1(x, y), sha_1::sha1su1(x, y)),
            differ(i::sha256rnds2(x, y, z), sha_256::sha256rnds2(x, y, z)),
            differ(i::sha256msg1(x, y), sha_256::sha256msg1(x, y)),
            differ(i::sha256msg2(x, y), sha_256::sha256msg2(x, y)),
            differ(i::sha256h(x, y, z), sha_256::sha256h(x, y, z)),
            differ(i::sha256h2(x, y, z), sha_256::sha256h2(x, y, z)),
            differ(i::sha256su0(x, y), sha_256::sha256su0(x, y)),
            differ(i::sha256su1(x, y, z), sha_256::sha256su1(x, y, z)),
            differ_64(i::sha512h(p, q, r), sha_512::sha512h(p, q, r)),
            differ_64(i::sha512h2(p, q, r), sha_512::sha512h2(p, q, r)),
            differ_64(i::sha512su0(p, q), sha_512::sha512su0(p, q)),
            differ_64(i::sha512su1(p, q, r), sha_512::sha512su1(p, q, r)),
            differ(i::copy(x), x),
        ];
        for k in 0..25 {
            wrong[k] = wrong[k].wrapping_add(found[k]);
        }
    }
    wrong
}

/// The initial hash values (FIPS 180-4, 5.3).
const INITIAL_1: [u32; 5] = [0x67452301, 0xefcdab89, 0x98badcfe, 0x10325476, 0xc3d2e1f0];

const INITIAL_256: [u32; 8] = [
    0x6a09e667, 0xbb67ae85, 0x3c6ef372, 0xa54ff53a, 0x510e527f, 0x9b05688c, 0x1f83d9ab, 0x5be0cd19,
];

const INITIAL_512: [u64; 8] = [
    0x6a09e667f3bcc908,
    0xbb67ae8584caa73b,
    0x3c6ef372fe94f82b,
    0xa54ff53a5f1d36f1,
    0x510e527fade682d1,
    0x9b05688c2b3e6c1f,
    0x1f83d9abfb41bd6b,
    0x5be0cd19137e2179,
];

/// A random message of `length` bytes, with its padding, which fills all of the blocks (FIPS 180-4, 5.1).
fn padded(seed: &mut u64, length: usize) -> [u8; 512] {
    let mut bytes = [0u8; 512];
    let n = length.min(503);
    for k in 0..n {
        bytes[k] = (next(seed) >> 56) as u8;
    }
    bytes[n] = 0x80;
    bytes[504..].copy_from_slice(&(8 * n as u64).to_be_bytes());
    bytes
}

/// Whether a digest has the bytes of these words, high first.
fn is_digest(words: &[u32], digest: &[u8]) -> bool {
    let mut same = true;
    for (k, byte) in digest.iter().enumerate() {
        match words.get(k / 4) {
            Some(word) if word.to_be_bytes()[k % 4] == *byte => {}
            _ => same = false,
        }
    }
    same
}

/// The same of words of 64 bits.
fn is_long_digest(words: &[u64], digest: &[u8]) -> bool {
    let mut same = true;
    for (k, byte) in digest.iter().enumerate() {
        match words.get(k / 8) {
            Some(word) if word.to_be_bytes()[k % 8] == *byte => {}
            _ => same = false,
        }
    }
    same
}

/// How many of `count` digests of each kind differ: of messages of one length, alone and two side by side.
fn digests_differ(count: u64, start: u64) -> [u64; 5] {
    let mut seed = start | 1;
    let mut wrong = [0u64; 5];
    for _ in 0..count {
        // All of these fill 512 bytes with their padding, at least 9 bytes, or 17 for SHA-512.
        let n = 440 + (next(&mut seed) % 56) as usize;
        let (x, y) = (padded(&mut seed, n), padded(&mut seed, n));
        let mut alone = INITIAL_1;
        by_sha_1::take_blocks(&mut alone, &x, 8);
        let (mut one, mut other) = (INITIAL_1, INITIAL_1);
        by_sha_1::take_blocks_of_two(&mut one, &x, &mut other, &y, 8);
        let (first, second) = (Sha1::digest(&x[..n]), Sha1::digest(&y[..n]));
        if !is_digest(&alone, &first) {
            wrong[0] = wrong[0].wrapping_add(1);
        }
        if !is_digest(&one, &first) || !is_digest(&other, &second) {
            wrong[1] = wrong[1].wrapping_add(1);
        }
        let mut alone = INITIAL_256;
        by_sha_256::take_blocks(&mut alone, &x, 8);
        let (mut one, mut other) = (INITIAL_256, INITIAL_256);
        by_sha_256::take_blocks_of_two(&mut one, &x, &mut other, &y, 8);
        let (first, second) = (Sha256::digest(&x[..n]), Sha256::digest(&y[..n]));
        if !is_digest(&alone, &first) {
            wrong[2] = wrong[2].wrapping_add(1);
        }
        if !is_digest(&one, &first) || !is_digest(&other, &second) {
            wrong[3] = wrong[3].wrapping_add(1);
        }
        let mut alone = INITIAL_512;
        by_sha_512::take_blocks(&mut alone, &x, 4);
        if !is_long_digest(&alone, &Sha512::digest(&x[..n])) {
            wrong[4] = wrong[4].wrapping_add(1);
        }
    }
    wrong
}

fn main(rt: HostRuntime) -> io::Result<()> {
    let mut given = env::args(&rt)?.skip(1);
    let count = given
        .next()
        .and_then(|it| it.as_str().parse().ok())
        .unwrap_or(1000);
    let start = given
        .next()
        .and_then(|it| it.as_str().parse().ok())
        .unwrap_or(1);
    let wrong = compared(count, start);
    for k in 0..25 {
        if wrong[k] > 0 {
            println!(rt; "{} differs {} times", NAMES[k], wrong[k])?;
        }
    }
    let wrong = digests_differ(count / 100, start);
    for k in 0..5 {
        if wrong[k] > 0 {
            println!(rt; "{} differ {} times", DIGESTS[k], wrong[k])?;
        }
    }
    let has = i::has_instructions();
    let has_of_sha_512 = i::has_instructions_of_sha_512();
    println!(rt; "{count} operands compared; SHA-1 and SHA-256: {has}, SHA-512: {has_of_sha_512}")
}
