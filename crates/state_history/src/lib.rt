//! What is true in each gap between the steps of a plan, and since when: the atoms are kept with the gaps in which they flip.
//!
//! Stands on `htn_base`, `problem_index`, `plan_model` with the definitions of its `plan_meaning`, and on lemmas of
//! `ground_state`. The contracts used above: `History::new` has the first state in gap 0, `History::push` goes on with the state
//! after an effect, and `History::look` tells whether a formula is true in any gap, with a gap since which that has not changed.
#![tactic(auto)]

mod desk;
mod flips;
mod gaps;
mod gather;
mod history;
#[cfg(test)]
mod tests;
mod truth;

pub use gaps::Look;
pub use history::History;
