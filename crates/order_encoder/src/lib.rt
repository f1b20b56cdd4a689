//! The formulas on order pairs between slots, for the actions of the printed problem, in both styles.
//!
//! It stands on `plan_model` alone, and has the definitions of these formulas, by the numbers of what the printed problem calls its
//! order pairs (`OrderNames`). The contract used above: what is given is the defined formula, and it means the order.
#![tactic(auto)]

mod clears;
mod copies;
mod order_names;
mod pairs;
mod waits;

pub use clears::{clearing, push_clearing};
pub use copies::{copying, push_copying};
pub use order_names::OrderNames;
pub use waits::{push_waiting, waiting};
