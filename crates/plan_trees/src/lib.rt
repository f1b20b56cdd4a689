//! The tree of a hierarchical plan whose lines are fitted by ground methods.
//!
//! Stands on `tree_core` for trees from growths, on `numbered_lines` and `line_fits` for the lines and their methods, and on the law of
//! `plan_encoder` that a plan whose lines are fitted has a tree. The contract used above: `tree_of` gives the tree with these methods,
//! and where the primitives stand in it.
//!
//! Each node has a seed, which says by numbers what stands there. The seeds come in breadth-first order, and their growths with labels are
//! made afterwards. Whatever the lines say, these are joined to one tree, and are no more than a tree may have nodes.
#![tactic(auto)]

mod actions;
mod labels;
mod plan_tree;
mod planting;
mod seed;
mod seeds;

pub use plan_tree::PlanTree;
pub use planting::tree_of;
