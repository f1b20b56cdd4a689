//! The steps that a run spells as a stack, where all methods are totally ordered, and its width.
//!
//! Each node is taken at the tip of the stack: one pass over the order, which keeps nothing but the tip, knows all cells. Stands on
//! `tree_core` for runs, on `stack_machine` for the law that what is taken lies at the tip, on `stack_encoding` for what steps say, and on
//! `slot_speller` for what is refused and for the definitions of names and objects. The contracts used above: `spell` gives the width of
//! a run, exactly where it is at most the cells, and then `put_steps` puts the steps that spell it with as many cells on a sheet.
#![tactic(auto)]

mod spelling;
mod steps;
mod tips;
mod words;

pub use spelling::{put_steps, spell};
