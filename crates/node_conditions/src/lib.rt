//! The latest gaps of a tree's nodes, and the first values of its methods there.
//!
//! Which node may stand in which gap is told from the states in the gaps between the steps of a plan: an action where its condition is
//! true, and a check where its method's precondition is true with values that the method can take. Stands on `gap_pass` for the pass
//! over the tree, on `state_history` for truth in gaps, on `value_choices` for values in their order, and on the definitions of
//! `plan_encoder`. The contracts used above: `latest_stands` gives the gaps and the values, and what it says of rows is what
//! `plan_encoder` says of nodes (`rows_tell_standing`).
#![tactic(auto)]

mod choosing;
mod conditions;
mod demand;
mod greatest;
mod known;
mod latest;
mod laws;
mod nodes;
mod stands;

pub use latest::latest_stands;
pub use laws::rows_tell_standing;
pub use stands::Stands;
