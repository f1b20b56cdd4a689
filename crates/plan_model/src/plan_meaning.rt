//! What the values of a problem mean: truth, steps of a state, classical plans, the network of a compiled problem,
//! solutions, tail-recursive problems and the bound.
//!
//! The definitions stand in specs/plan_meaning, in reading order in `specs/plan_meaning.antt`. They stand on the values and on
//! `task_networks`.
//! Crates above cite the definitions; the laws say that they fit together.

mod laws;

pub use laws::{
    bound_is_the_only_one, compiled_network_is_lawful, each_list_is_a_plan_or_fails,
    prefix_is_executable,
};
