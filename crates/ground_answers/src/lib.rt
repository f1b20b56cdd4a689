//! A law: whichever value of two texts is taken, the same is reached of what is compiled of it, with the same ground bound and the same
//! named cycle, in the same words.
//!
//! Stands on the definitions of `ground_bound`, and on `plan_proof` and `decode_answers` for the values of two texts. The contract used
//! above: the law.
#![tactic(auto)]

mod laws;

pub use laws::values_have_one_ground_bound;
