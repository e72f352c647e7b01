//! Tests of what fsverity does over a runtime in memory and over openers: which files are opened when, what is refused
//! and how, what long work shows, many files and long words, each set of options, and one whole run with each option.
//! Expected bytes come from the kernel's page on fs-verity, expected digests from `sha2` over stated bytes, or from
//! docs/DEFINITIONS.md. What a run of the program itself shows is tested in tests/programs.
#![tactic(auto)]

#[cfg(test)]
mod digest_openings;
#[cfg(test)]
mod digest_refusals;
#[cfg(test)]
mod digest_runs;
#[cfg(test)]
mod long_words;
#[cfg(test)]
mod many_files;
#[cfg(test)]
mod option_sets;
#[cfg(test)]
mod program_runs;
#[cfg(test)]
mod progress;
#[cfg(test)]
mod stating_opener;
