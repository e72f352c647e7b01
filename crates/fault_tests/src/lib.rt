//! Each fault of a program in turn: every call of its files fails once, its output and its messages end at each length,
//! and fields of superblocks and bytes of trees are changed. What each fault should leave is known from lists of steps
//! and from trees of plain bytes, with digests of `sha1` and `sha2`.
#![tactic(auto)]

#[cfg(test)]
mod endings;
#[cfg(test)]
mod fsverity_commands;
#[cfg(test)]
mod fsverity_faults;
#[cfg(test)]
mod hostile;
#[cfg(test)]
mod passes;
#[cfg(test)]
mod scene;
#[cfg(test)]
mod steps;
#[cfg(test)]
mod trials;
#[cfg(test)]
mod veritysetup_commands;
#[cfg(test)]
mod veritysetup_faults;
