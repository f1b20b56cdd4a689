//! What is printed for a compiled problem whose methods are totally ordered, as a stack: definitions, and laws of its values and texts.
//!
//! Stands on `slot_encoding`, whose types, guards and source parts it has, and on `stack_machine`, whose spellings it puts in words.
//! The contracts used above: there is a value of a stack for each compiled problem and each number of cells
//! (`every_problem_has_a_stack_value`); over a table that has all its words it can be printed (`stack_encoded_is_printable`); and all
//! of them have the same two texts (`stack_values_say_the_same`).
#![tactic(auto)]

mod stack_laws;

pub use stack_laws::{
    every_problem_has_a_stack_value, stack_encoded_is_printable, stack_values_say_the_same,
};
