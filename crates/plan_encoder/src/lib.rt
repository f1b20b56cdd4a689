//! Laws that an encoder of hierarchical plans stands on: what the words of a plan tell of its tree, which plans have one, and when a
//! solution shows a plan.
//!
//! Stands on `schedules::latest` for gap functions and latest schedules, on `hplan_text` for plans, on `tree_core` for places in lists,
//! and on `plan_texts` for sound problems. Nothing here runs. The contracts used above: a plan has a tree exactly where some ground
//! method fits each of its lines (`fitting_plans_have_trees`), and with its tree some solution shows it exactly where the goal is true
//! after its primitives and the tree has a gap function; the schedule of the latest one is such a solution (`solutions_are_gaps`).
#![tactic(auto)]

mod laws;

pub use laws::{fitting_plans_have_trees, shown_are_lines, solutions_are_gaps, words_tell};
