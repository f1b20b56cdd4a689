//! The text of the tree that a plan's text spells.
//!
//! Stands on `plan_text` for the steps, on `tree_decoder` for the tree, and on `hplan_text` for the plan that it shows and its text.
//! The contract used above: `tree_text` gives the text of the one hierarchical plan that the solution of the steps shows, if it is
//! no longer than the limit, else its length; or the step at which they fail, and its first cause. `stack_text` does so for the
//! steps of a stack.
#![tactic(auto)]

mod text;

pub use text::{TreeText, stack_text, tree_text};
pub use tree_decoder::Why;
