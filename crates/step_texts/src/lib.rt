//! The text of the steps that a hierarchical plan comes to: its latest schedule, spelled with the lowest free slots, or as a stack.
//!
//! Stands on `plan_placer` for the schedule, on `slot_speller` for slots, and on `stack_speller` for cells. The contracts used above:
//! `step_text` gives the text with slots, whole or its length where it is too long, or why the plan has none, and `stack_text` that as a
//! stack; `step_count` gives the width and the number of steps, or why the plan has none.
#![tactic(auto)]

mod count;
mod stack;
mod text;

pub use count::{StepCount, step_count};
pub use stack::stack_text;
pub use text::{StepText, step_text};
