//! Which ground methods fit the lines of a hierarchical plan: each with the first values with which its method decomposes the line's task
//! into the subtasks that the line lists.
//!
//! Stands on `method_fits` for one line, on `numbered_lines` for the lines by numbers, and on the definitions of `plan_encoder`. The
//! contract used above: `fit_lines` gives a ground method for the root and for each line, or the first of these that none fits.
#![tactic(auto)]

mod children;
mod fitted;
mod fitting;
mod wanted;

pub use fitted::{FitError, Fits, MethodFit};
pub use fitting::fit_lines;
