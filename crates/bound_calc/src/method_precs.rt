//! The compiled value of a problem: checks of preconditions, pairs, lines, heirs, copiers and guards of its methods.
//!
//! Stands on the definitions of `plan_model` and `plan_texts` and on `plan_model::net_order`. The contract used above: `compile` gives the
//! compiled value, and its network is lawful.

mod checks;
mod children;
mod compilation;
mod guards;
mod orders;
mod pairs;
mod placed;
mod plans;
mod single_guards;
mod single_pairs;

pub use compilation::compile;
