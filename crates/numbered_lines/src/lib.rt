//! The lines of a hierarchical plan by numbers: actions, tasks, methods and objects by their places in the problem, and the lines that a
//! line lists by theirs in the plan.
//!
//! Stands on `hplan_text` for plans, on `problem_index` for places by words, and on the definitions of `plan_encoder`. The contract used
//! above: `numbered` gives the numbers of a plan's lines, and none where a word is of nothing in the problem.
#![tactic(auto)]

mod line_places;
mod lines;
mod numbering;
mod word_numbers;

pub use lines::{Lines, Said, Split};
pub use numbering::numbered;
