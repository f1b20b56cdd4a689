//! The parts of a problem that a solution can use, and the problem with these parts alone.
//!
//! Its laws stand on `plan_model`, with its `task_networks` and `plan_meaning`, on those of `slot_machine` and `renamed_networks`, and on
//! what `plan_texts` calls sound. The contract for a layer above: the solutions of the problem and of the pruned one are the same once
//! schemas are read by their names (`pruned_has_the_same_solutions`), the same lists spell them (`pruned_has_the_same_plans`), and there
//! are none where the top method isn't live or the goal can't be so (`solved_may_be_solved`). What is live and what is kept is one thing
//! alone (`live_exactly`, `kept_exactly`), and the pruned value of a sound problem is sound (`pruned_is_sound`).
#![tactic(auto)]

mod laws;
mod pruned_sound;

pub use laws::{
    kept_exactly, live_exactly, live_parts_grow, live_parts_have_reasons, nodes_are_kept,
    pruned_has_the_same_plans, pruned_has_the_same_solutions, solved_may_be_solved,
};
pub use pruned_sound::{pruned_is_sound, sound_is_numbered};
