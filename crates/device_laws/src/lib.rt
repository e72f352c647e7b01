//! A law of hash devices that the library for C builds, in the words of the program `veritysetup`.
#![tactic(auto)]

pub mod laws;
