//! SHA-1: words of 32 bits, eight to a vector. Its padding and its words of a block are those of SHA-256 (FIPS 180-4,
//! 5.1.1 and 5.2.1).
mod by_instructions;
pub(crate) mod digests;
mod functions;
pub(crate) mod one_message;
mod plain_rounds;
mod rounds;
mod schedule;
