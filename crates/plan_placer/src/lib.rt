//! A hierarchical plan is placed: its tree with the latest schedule that shows it.
//!
//! Stands on `numbered_lines`, `line_fits` and `plan_trees` for the tree, on `state_history` for the states between its actions, on
//! `node_conditions` for the latest gaps and the first values, on `chosen_trees` for the tree with these, on `schedule_queue` for the
//! order, and on the definitions of `placements`.
//! The contract used above: `place` gives the latest schedule, which is of a solution that shows the plan, exactly where some solution
//! shows it; else the first sentence that says why.
#![tactic(auto)]

mod executing;
mod place_error;
mod placing;
mod planting;
mod scheduling;

pub use place_error::PlaceError;
pub use placing::place;
