//! Laws of a machine with a stack, for networks in which each method's children come one after another: what is pending lies in cells
//! from 1 on, without gaps, and only what is at the tip can be taken.
//!
//! Stands on `plan_model::task_networks`, `slot_machine` and `schedules`; nothing here runs, and no states, texts or printed words are in
//! it. The contracts for a layer above: plans of the stack are exactly the spellings of solutions with their cells, one for each solution
//! tree that has few pending (`stack_plans_are_solutions`), and another machine that agrees with the stack takes the same lists
//! (`other_takes_cells`).
#![tactic(auto)]

mod laws;
mod machine;

pub use laws::{
    cells_are_a_rule, cells_are_in_a_row, cells_tell_tip, one_schedule, other_takes_cells,
    prepared_is_total, stack_plans_are_solutions, stack_runs_are_cells,
};
pub use machine::OtherStack;
