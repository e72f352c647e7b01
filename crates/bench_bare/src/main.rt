//! What the programs are measured against: it hashes each block of a file, after a salt of 32 bytes, one after another,
//! and does nothing else. It prints the exclusive or of the digests' first bytes.
//!
//! Words: `crates`, for the crates `sha1` and `sha2`, or `alone`, for `salted`, by which the programs hash one block
//! alone; sha1, sha256 or sha512; the size of a block (512, 4096, 16384, 65536 or 262144); and the file.
#![tactic(auto)]

ghost use Rattle.std.specs.Prelude.{◌≤◌};

use sha1::Sha1;
use sha2::{Digest, Sha256, Sha512};
use std::fs::File;
use std::io::Read;
use std::{env, io};
use verity_hash::{Algorithm, SaltRule, salted};

const SALT: [u8; 32] = [7; 32];

/// The first byte of a block's hash by the crates.
fn by_crates(function: Algorithm, block: &[u8]) -> u8 {
    match function {
        Algorithm::Sha1 => {
            let mut hasher = Sha1::new();
            hasher.update(&SALT);
            hasher.update(block);
            hasher.finalize()[0]
        }
        Algorithm::Sha512 => {
            let mut hasher = Sha512::new();
            hasher.update(&SALT);
            hasher.update(block);
            hasher.finalize()[0]
        }
        _ => {
            let mut hasher = Sha256::new();
            hasher.update(&SALT);
            hasher.update(block);
            hasher.finalize()[0]
        }
    }
}

/// The first byte of a block's hash.
fn first_byte(alone: bool, function: Algorithm, block: &[u8]) -> u8 {
    if alone {
        salted(function, SaltRule::Before, &SALT, block).as_bytes()[0]
    } else {
        by_crates(function, block)
    }
}

/// Hashes what a reader gives, a buffer at a time.
fn hash_all<R: Read>(
    reader: &mut R,
    alone: bool,
    function: Algorithm,
    buffer: &mut [u8],
) -> io::Result<u8> {
    let mut joined = 0;
    for _ in 0..u64::MAX {
        let count = reader.read(buffer)?;
        if count == 0 {
            break;
        }
        joined ^= first_byte(alone, function, &buffer[..count]);
    }
    Ok(joined)
}

/// The function that a word chooses.
fn function_of(word: &str) -> Algorithm {
    match word {
        "sha1" => Algorithm::Sha1,
        "sha512" => Algorithm::Sha512,
        _ => Algorithm::Sha256,
    }
}

/// The size of a block that a word chooses.
fn block_size(word: &str) -> usize
    ensures { result ≤ 262144 }
{
    match word {
        "512" => 512,
        "16384" => 16384,
        "65536" => 65536,
        "262144" => 262144,
        _ => 4096,
    }
}

/// Hashes a file, a block of this size at a time.
fn hash_file(
    rt: &HostRuntime,
    name: &str,
    alone: bool,
    function: Algorithm,
    size: usize,
) -> io::Result<u8>
    requires { size ≤ 262144 }
{
    let mut file = File::open(rt, name)?;
    let mut buffer = [0; 262144];
    hash_all(&mut file, alone, function, &mut buffer[..size])
}

fn main(rt: HostRuntime) -> io::Result<()> {
    let mut words = env::args(&rt)?.skip(1);
    let (Some(way), Some(function), Some(size), Some(name)) = (
        words.next(),
        words.next(),
        words.next(),
        words.next(),
    ) else {
        return println!(rt; "crates|alone sha1|sha256|sha512 SIZE FILE");
    };
    let alone = way.as_str() == "alone";
    let size = block_size(size.as_str());
    let joined = hash_file(
        &rt,
        name.as_str(),
        alone,
        function_of(function.as_str()),
        size,
    )?;
    println!(rt; "{joined:02x}")
}
