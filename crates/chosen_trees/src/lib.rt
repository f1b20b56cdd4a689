//! A tree whose methods get other values, as where those of undetermined parameters are chosen.
//!
//! Stands on `tree_core` for trees, and on the definitions of `plan_encoder`. The contract used above: `with_values` gives the tree in
//! which each method, and its check, has the values that stand at the place of the node that asks for them.
#![tactic(auto)]

mod choosing;

pub use choosing::with_values;
