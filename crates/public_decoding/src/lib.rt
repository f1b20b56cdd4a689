//! Tests of decoding: plans of the printed problem, and the hierarchical plans that they show or the steps at which they fail, worked
//! out by hand.
//!
//! It stands on the crates from texts to a tree's text, and nothing stands on it.
#![tactic(auto)]

#[cfg(test)]
mod decoded_plans;
