//! The latest gap of each node of a tree, found in one pass over it, or that there is no gap function.
//!
//! Which node may stand in which gap is told by an oracle (`Conditions`), which is asked once for each node: for the greatest gap up to
//! a bound. The pass goes through the children of each node from the last of its method's line to the first. It stands on
//! `schedules::latest` for gap functions, on `tree_core` for trees by the addresses of their nodes, and on `kept_front` for what comes
//! right after each child of a method. The contract used above: `latest_gaps`.
#![tactic(auto)]

mod children;
mod conditions;
mod latest;
mod least;
mod pass;
mod tour;

pub use conditions::Conditions;
pub use latest::latest_gaps;
