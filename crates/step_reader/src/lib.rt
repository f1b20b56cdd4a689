//! A printed step of a plan, read as the act that it names: what is processed, at which slot, with which new slots and objects.
//!
//! Stands on the index of printed words of `problem_index`, on `ground_state`, which finds the objects of words, and on the laws of
//! `decoding`. The contract used above: `read` tells what a step is read as, or that its name is no printed action's, or that its
//! arguments are not those that are due. Where it is compiled of a sound problem, all that `read` asks of it holds. `read_at_cells` does
//! so for a step of a stack, which names cells that lie one above the other.
#![tactic(auto)]

mod answer;
mod cells;
mod due;
mod rows;
mod slots;
mod stacks;
mod step;

pub use answer::Read;
pub use stacks::{StackRead, read_at_cells};
pub use step::read;
