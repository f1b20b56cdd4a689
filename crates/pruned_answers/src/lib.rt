//! Laws: what pruning comes to is one thing, whichever value of two texts is taken, and the texts that are printed of what is kept have
//! the plans of the problem.
//!
//! Stands on the laws of `live_parts` about values, on `hddl_prune` for what pruning gives, on the printed texts of `hddl_texts`, on
//! `plan_proof` for the values and plans of two texts, and on `renamed_networks`. The contract used above: the five laws.
#![tactic(auto)]

mod laws;

pub use laws::{
    each_is_pruned_somehow, no_solution_of_texts, pruned_texts_keep_plans, pruned_texts_spell,
    values_are_pruned_alike,
};
