//! What becomes of a hierarchical plan that is to be placed: the latest schedule that shows it, or the first sentence that says why there is
//! none. Definitions and laws.
//!
//! Stands on `plan_encoder` for plans, their trees and gap functions, and on `value_choices` for the order of values. The contracts used
//! above: what is placed is a solution that shows the plan (`placed_are_solutions`), and a plan that is refused is shown by none
//! (`refused_are_shown_by_none`).
#![tactic(auto)]

mod laws;

pub use laws::{placed_are_solutions, refused_are_shown_by_none};
