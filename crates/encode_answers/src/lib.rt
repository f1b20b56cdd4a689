//! Laws: a hierarchical plan comes to something, and to one thing alone, its latest schedule or the first sentence that says why it has
//! none; and whichever value of two texts is taken, this is the same. Its steps are one list, which needs no more slots than the bound.
//!
//! Stands on the definitions of `placements` and `step_texts`, and on `decode_answers` for the values of two texts. The contract used
//! above: the laws.
#![tactic(auto)]

mod laws;

pub use laws::{
    each_is_encoded_once, each_is_encoded_somehow, each_is_spelled_once,
    no_width_is_past_the_bound, values_are_encoded_alike,
};
