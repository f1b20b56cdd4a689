//! A classical plan becomes the decomposition tree that it spells.
//!
//! Stands on `kept_front` for what is kept of the front, on `step_reader` for the words of steps, on `ground_state` for the state,
//! on `tree_core` for the tree, and on the laws of `decoding`. The contract used above: `Decoder::take` takes a step of a plan or
//! says the first cause for which it can't be taken, so that no plan need be held, and `Decoder::finish` gives the tree with its
//! schedule and slots, or says what is left; `decode` does both for a list. `Decoder::take_at_tip` takes a step of a stack.
#![tactic(auto)]

mod allowing;
mod decoded;
mod decoder;
mod meeting;
mod plan;
mod taking;
mod testing;

pub use decoded::{DecodeError, Decoded};
pub use decoder::Decoder;
pub use decoding::Why;
pub use plan::decode;
