//! SHA-1 and SHA-2 (FIPS 180-4) in vectors, or by the processor's SHA instructions. Section numbers are the standard's.
//!
//! `sha1` to `sha512` hash eight messages of one length side by side: a vector has a word of each of the eight, or of
//! four if words have 64 bits. A message is some bytes that all have in common, a part of its own, and more bytes in
//! common. `sha1_alone` to `sha512_alone` hash one message: a vector has a word of each of eight, or four, consecutive
//! blocks of it. Where the processor has SHA instructions for a function, these take its blocks instead. `are_zeros` tells
//! whether bytes are all zeros.
#![tactic(auto)]

mod rows;
mod sha_1;
mod words32;
mod words64;

pub use rows::are_zeros;
pub use sha_1::digests::sha1;
pub use sha_1::one_message::sha1_alone;
pub use words32::digests::{sha224, sha256};
pub use words32::one_message::{sha224_alone, sha256_alone};
pub use words64::digests::{sha384, sha512};
pub use words64::one_message::{sha384_alone, sha512_alone};
