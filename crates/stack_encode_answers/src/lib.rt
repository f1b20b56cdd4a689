//! Laws of stacks: a hierarchical plan of a totally ordered problem comes to something, and to one thing alone; and whichever value of two
//! texts is taken, this is the same. Its steps are one list, and it is as wide as with slots.
//!
//! Stands on the laws of `encode_answers` for where a plan is placed and why it is not, on `stack_machine` for the only list of a tree,
//! and on `step_texts` for what a plan comes to. The contract used above: the laws.
#![tactic(auto)]

mod laws;

pub use laws::{
    each_is_one_stack, each_is_stacked_once, each_is_stacked_somehow, values_are_stacked_alike,
    width_is_that_of_slots,
};
