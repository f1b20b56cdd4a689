//! Tests of calls that crates make public, but those that read texts: each call that may want memory is made once with ample memory,
//! here, by the program for printed rows or by a run in `public_program`, and its answer compared with one that is known from outside
//! of the program.
//!
//! It stands on the crates that it tests, a file for each, and nothing stands on it. A test here costs no crate below a second proof.
#![tactic(auto)]

#[cfg(test)]
mod files_and_sinks;
#[cfg(test)]
mod growths;
#[cfg(test)]
mod names_and_texts;
#[cfg(test)]
mod order_formulas;
#[cfg(test)]
mod orders;
#[cfg(test)]
mod scopes;
#[cfg(test)]
mod values;
