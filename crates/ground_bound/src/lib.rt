//! The bound over what is reached: ground tasks and ground methods in place of schemas.
//!
//! The contracts used above: the bound over what is reached, or why there is none that is told (`ground_bound`), with the words of the
//! named cycle (`ground_cycle_words`); and that no schedule of a solution has more pending at any time than the ground bound
//! (`solutions_are_within_the_ground_bound`), since a compiled problem has either exactly one ground bound or exactly one named bad cycle
//! (`ground_tail_recursive_or_bad_cycle`, `ground_tail_recursive_has_one_bound`).
//!
//! It stands on `reached_parts` for what is reached. Of that it makes a compiled problem without parameters, of a task for each reached
//! task and a method for each reached method. It has the strata, the named cycle and the bound of what is reached, and `bound_calc`
//! tells them.
#![tactic(auto)]

mod bounding;
mod ground_error;
mod ground_words;
mod grounded;
mod in_order;
mod laws;
mod networks;

pub use bounding::ground_bound;
pub use ground_error::{GroundEdge, GroundError};
pub use ground_words::ground_cycle_words;
pub use laws::{
    finite_has_one_bound, finite_is_tail_recursive_or_not, ground_tail_recursive_has_one_bound,
    ground_tail_recursive_or_bad_cycle, nodes_are_reached, restricted_width_is_bounded,
    solutions_are_within_the_ground_bound,
};
pub use networks::OrderedNetwork;
