//! Tests of the run that the program makes, over files and streams in memory: rows of words and files, with the status, the lines and
//! the files that are left. Beside them those of `ground_state` over values made by hand. `steady_run` is a law: over files and streams
//! that never fail a run ends with no failure.
//!
//! It stands on `htn_cli`, on the files and streams of `memory_io`, and on the crates that make the values of a problem, and nothing
//! stands on it: a test here costs no crate below a second proof.
#![tactic(auto)]

#[cfg(test)]
mod by_hand;
#[cfg(test)]
mod runs;
mod steady;

pub use steady::steady_run;
