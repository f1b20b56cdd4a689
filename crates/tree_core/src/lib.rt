//! Trees as flat tables, and trees from growths, each of which names its parent.
//!
//! A tree is the list of its nodes in preorder, each with its label, its parent, its child number and the place after its subtree: a
//! list stands for the one tree whose table it is (`table`). It stands on `htn_base` and `plan_model`. The contract used above: `grow`
//! gives the one tree of the growths, or the first place at which they are not joined.
#![tactic(auto)]

mod children;
mod defects;
mod ends;
mod growing;
mod growth;
mod label;
mod laws;
mod rows;
mod tree;
mod walk;

pub use growing::grow;
pub use growth::{GrowError, Growth, Scheduled};
pub use label::Label;
pub use laws::{
    consistent_exactly_where_table, growths_have_one_tree, joined_exactly_where_tree,
    labels_tell_tree, one_more_growth, runs_stand_for_trees, schedules_are_growths,
    table_is_of_one_tree, tables_tell_trees, unjoined_have_no_tree,
};
pub use tree::Tree;
