//! Tests of veritysetup. Most are of what a run of the program doesn't show: which files are opened, in which order,
//! and how long they stay open, what is synced, two names of one file, data that grows, random values, the largest
//! offset, long words, each set of options, the progress line, the messages of faults. Besides these there are a whole
//! run of each command, the report of each hash function, and a refusal for each place that refuses and for each
//! option. What a run of the program shows is tested in tests/programs. Expected bytes come from the formats' public
//! pages, expected digests from `sha2` or sha256sum over stated bytes.
#![tactic(auto)]

#[cfg(test)]
mod growing_data;
#[cfg(test)]
mod long_words;
#[cfg(test)]
mod messages;
#[cfg(test)]
mod missing_options;
#[cfg(test)]
mod offsets;
#[cfg(test)]
mod openings;
#[cfg(test)]
mod option_sets;
#[cfg(test)]
mod program_runs;
#[cfg(test)]
mod progress;
#[cfg(test)]
mod random_values;
#[cfg(test)]
mod refused_lines;
#[cfg(test)]
mod refused_options;
#[cfg(test)]
mod reports;
#[cfg(test)]
mod syncs;
#[cfg(test)]
mod two_names;
#[cfg(test)]
mod whole_runs;
