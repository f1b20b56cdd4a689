//! Tests of runs that are to fail: each call outside fails once, or finds no memory, in every command (`failures`); each text that a
//! command reads is a hostile one (`hostile`), or a beginning of what it was (`beginnings`). What is wanted of a run is found here from a
//! table of the commands, with what each reads, writes and tells.
//!
//! It stands on `htn_cli`, and on files and sinks of its own over those of `memory_io`. Nothing stands on it.
#![tactic(auto)]

#[cfg(test)]
mod beginnings;
#[cfg(test)]
mod commands;
#[cfg(test)]
mod failures;
#[cfg(test)]
mod hostile;
#[cfg(test)]
mod made;
#[cfg(test)]
mod outside;
#[cfg(test)]
mod runs;
#[cfg(test)]
mod texts;
