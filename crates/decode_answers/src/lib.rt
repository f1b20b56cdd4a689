//! Laws: a list of steps is decoded to something, and to one thing alone: the hierarchical plan that its solution shows, or the step at
//! which it fails with its first cause. Whichever value of two texts is taken, this is the same.
//!
//! Stands on the laws of `decoding`, on `hplan_text`, on `plan_proof` for the values of two texts, and on `renamed_networks`. The
//! contract used above: the three laws.
#![tactic(auto)]

mod laws;

pub use laws::{each_is_decoded_once, each_is_decoded_somehow, values_are_decoded_alike};
