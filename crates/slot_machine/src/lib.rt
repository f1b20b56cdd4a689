//! The machine of slots, and what its runs are: the spelled fronts of a task network. And what bounds them (`bound_laws`).
//!
//! It stands on `plan_model::task_networks`, and but for `bound_laws` no type of the layers above is in it. A crate above plugs in a
//! network, an execution or another machine, and calls the law that it needs; `plans_are_spelled_solutions` and `other_takes_fronts`
//! are the two that a classical encoding stands on.
#![tactic(auto)]

pub mod bound_laws;
mod laws;
mod machine;

pub use laws::{
    causes_are_sentences, few_pending_have_spellings, front_is_the_only_one, labels_are_of_acts,
    other_takes_fronts, pending_are_open_leaves, plans_are_spelled_solutions,
    runs_are_spelled_fronts, state_tells_front, width_is_bounded,
};
pub use machine::{Execution, OtherMachine};
