//! The two printed texts of a compiled problem as a stack, within a limit, and how long they are; and which methods are totally ordered.
//!
//! Stands on the definitions of `stack_encoding`, on `slot_encoder`, whose parts of the source, guards and facts it has, and on
//! `pddl_printer`, which puts the texts on sheets. The contracts used above: `untotal` gives the first method that is not totally
//! ordered; `stack_texts_of` gives the two texts of an encoded value that has all its words and can be printed wherever the problem is
//! sound, if neither is longer than the limit; else the length of the first that is. `stack_sizes` gives their lengths.
#![tactic(auto)]

mod atoms;
mod declarations;
mod encoding;
mod initial;
mod methods;
mod order;
mod printing;
mod words;
mod works;

pub use order::untotal;
pub use printing::{stack_sizes, stack_texts_of};
