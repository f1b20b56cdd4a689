//! What a decoder keeps of a front: its growths, the open leaf of each slot with the number of its direct predecessors that are not
//! whole, and for each decomposed task the slots of its children and how many of these are not whole.
//!
//! Stands on `plan_model`, `tree_core` and the laws of `decoding`. The contracts used above: `Front::holds` tells what stands at an
//! open leaf, and `Front::take` takes an act there, and keeps what is kept of the longer front. A leaf waits exactly where its
//! number isn't 0, and a subtree that becomes whole counts down what it precedes, so nothing walks over pending tasks.
#![tactic(auto)]

mod front;
mod later;
mod leaves;
mod nodes;
mod slots;
mod works;

pub use front::Front;
pub use later::Later;
pub use leaves::{Leaf, Leaves};
pub use nodes::{Node, Nodes};
pub use works::WorkKind;
