//! Laws: task networks that are the same but for the names of their works and methods have the same trees, fronts, schedules,
//! executions and spellings.
//!
//! Stands on `plan_model`. It has lemmas alone, which laws above name: `RenamedTrees` (labels, growth, fronts) and `RenamedRuns`
//! (solutions, spellings, widths, and the tree that goes with a tree).
#![tactic(auto)]
