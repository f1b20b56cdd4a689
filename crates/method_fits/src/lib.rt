//! Which values a method has where it decomposes a task into subtasks that are given.
//!
//! Stands on `value_choices` for the values that are left open, and on `plan_model` with the definitions of its `plan_meaning`. The
//! contract used above: `fitting` gives the first values with which the method of a number decomposes the task into the subtasks, and
//! what these tell of its values, or it tells that it does so with no values.
#![tactic(auto)]

mod children;
mod fit;
mod subtask;

pub use fit::{Fit, fitting};
pub use subtask::Subtask;
