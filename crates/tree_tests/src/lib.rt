//! Tests of salted hashes, plans and trees: how blocks are hashed with a salt; a plan's numbers; how trees are built,
//! also as pieces of their data come and from parts, and compared, also while each read and write fails in turn; how
//! data is read; and how single blocks are checked by their paths. Expected digests are published ones, or come from
//! `sha1` and `sha2` over stated bytes.
#![tactic(auto)]

#[cfg(test)]
mod asking;
#[cfg(test)]
mod cases;
#[cfg(test)]
mod comparing;
#[cfg(test)]
mod failed_reads;
#[cfg(test)]
mod faults_in_turn;
#[cfg(test)]
mod feeding;
#[cfg(test)]
mod file_trees;
#[cfg(test)]
mod largest_plans;
#[cfg(test)]
mod parts;
#[cfg(test)]
mod paths;
#[cfg(test)]
mod salting;
#[cfg(test)]
mod short_reads;
#[cfg(test)]
mod sweep;
#[cfg(test)]
mod trees;
#[cfg(test)]
mod windows;
