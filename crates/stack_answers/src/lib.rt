//! Laws: a list of steps of a stack is decoded to something, and to one thing alone: the hierarchical plan that its solution shows, or the
//! step at which it fails with its first cause. Whichever value of two texts is taken, this is the same.
//!
//! Stands on `decode_answers`, which says so of slots, and on the laws of `stack_decoding`. The contract used above: the three laws.
#![tactic(auto)]

mod laws;

pub use laws::{
    each_is_stack_decoded_once, each_is_stack_decoded_somehow, values_are_stack_decoded_alike,
};
