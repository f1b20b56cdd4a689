//! The order of one network's children: what precedes what, the line, the heir, the last child, the maximal
//! children and the cuts.
//!
//! Stands on `htn_base`, on the pairs of this crate and on the definitions of `task_networks`. The contract used above: an order
//! answers what the pairs generate, and a list of pairs with a cycle is refused by the first pair that closes one.

mod child_set;
mod closure;
mod cuts;
mod cycle;
mod direct;
mod firsts;
mod front;
mod last;
mod line;
mod order;
mod sorted;
mod walk;

pub use child_set::ChildSet;
pub use direct::empty_sets;
pub use order::{Order, OrderError};
