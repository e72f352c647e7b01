//! SHA-224 and SHA-256: words of 32 bits, eight to a vector.
mod by_instructions;
pub(crate) mod digests;
pub(crate) mod functions;
pub(crate) mod hash_values;
pub(crate) mod one_message;
pub(crate) mod padding;
mod plain_rounds;
mod rounds;
pub(crate) mod schedule;
