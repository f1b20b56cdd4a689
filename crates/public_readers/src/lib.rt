//! Tests of the calls that read texts: each is made once with ample memory, and its answer compared with one that is known from
//! outside of the program.
//!
//! It stands on the crates that it tests, a file for each, and nothing stands on it. A test here costs no crate below a second proof.
#![tactic(auto)]

#[cfg(test)]
mod classical_plans;
#[cfg(test)]
mod classical_texts;
#[cfg(test)]
mod definitions;
#[cfg(test)]
mod faults;
#[cfg(test)]
mod forms;
#[cfg(test)]
mod hierarchical_plans;
#[cfg(test)]
mod readings;
#[cfg(test)]
mod shown_plans;
#[cfg(test)]
mod tokens;
