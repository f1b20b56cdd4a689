//! The order of a schedule, from the gaps of its nodes: gap by gap, in each the first node in preorder that can be taken, then the
//! primitive of the gap.
//!
//! Stands on `plan_model`, `tree_core`, `kept_front::Later` and the laws of `schedules::latest`. The contract used above:
//! `scheduled_order` gives the order of the schedule of these gaps. Each node has a count of its children that are not whole and
//! of the siblings right before it that are not, so that what a step makes available is found on the way up alone.
#![tactic(auto)]

mod children;
mod given;
mod order;
mod queue;

pub use order::scheduled_order;
