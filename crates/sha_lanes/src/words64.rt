//! SHA-384 and SHA-512: words of 64 bits, four to a vector.
mod by_instructions;
pub(crate) mod digests;
mod functions;
mod hash_values;
pub(crate) mod one_message;
mod padding;
mod plain_rounds;
mod rounds;
mod schedule;
