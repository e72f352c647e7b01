//! SHA-1 and SHA-256 (FIPS 180-4) by the SHA instructions of x86-64 and of 64-bit ARM, and SHA-512 by those of ARM. Section
//! numbers are the standard's.
//!
//! `models` has each instruction as the processor's manual describes it, and `instructions` has one function for each,
//! whose body is the model. A build by `instructions/clang_with_instructions.c` puts the instruction itself in place of
//! that body. All else here is proved over what these functions ensure. In such a build `sha_1` and `sha_256` are called
//! only where `has_instructions` answers yes, and `sha_512` where `has_instructions_of_sha_512` does: otherwise the
//! processor may end the program.
#![tactic(auto)]

pub mod instructions;
pub mod models;
pub mod sha_1;
pub mod sha_256;
pub mod sha_512;
mod words;
