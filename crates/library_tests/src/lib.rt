//! Tests of the libraries below the programs, except trees: how messages are hashed, alone and side by side; sources
//! and devices over files, the bytes of the formats, and what both programs share. Expected bytes come from the
//! formats' public pages; expected digests are published ones, or come from `sha1` and `sha2` over stated bytes.
#![tactic(auto)]

#[cfg(test)]
mod examples;
#[cfg(test)]
mod file_devices;
#[cfg(test)]
mod file_identity;
#[cfg(test)]
mod files;
#[cfg(test)]
mod formats;
#[cfg(test)]
mod given_words;
#[cfg(test)]
mod one_message;
#[cfg(test)]
mod printing;
#[cfg(test)]
mod progress;
#[cfg(test)]
mod side_by_side;
#[cfg(test)]
mod sparse;
#[cfg(test)]
mod syncs;
