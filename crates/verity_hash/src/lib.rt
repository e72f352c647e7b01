//! The salted hash of the Linux kernel's dm-verity and fs-verity: algorithms, digests, and where the salt goes.
#![tactic(auto)]

mod algorithm;
mod digest;
mod rows;
mod salting;
mod short_bytes;

pub use algorithm::Algorithm;
pub use digest::Digest;
pub use rows::salted_rows;
pub use salting::{SaltRule, salted};
pub use short_bytes::ShortBytes;
