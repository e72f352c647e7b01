//! The run functions when a request for memory is refused: `make out-of-memory` refuses each request of each test here
//! in turn, first those of its preparation. `tests/memory.sh` says how each test ends then.
#![tactic(auto)]

#[cfg(test)]
mod fsverity_runs;
#[cfg(test)]
mod run_result;
#[cfg(test)]
mod veritysetup_runs;
