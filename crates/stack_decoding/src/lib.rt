//! Laws that a decoder of plans of a stack stands on: where a list of steps fails to spell a solution with the cells of a stack, and why.
//!
//! Nothing here runs. Stands on the laws of `decoding` for failing steps, on `stack_machine` for cells, and on `stack_encoding` for the
//! words of steps. The contract used above: a list of printed steps spells a solution of a totally ordered problem, or fails at one step
//! for one first cause, and not both.
#![tactic(auto)]

mod laws;

pub use laws::{each_list_is_a_solution_or_fails, steps_are_of_one_act};
