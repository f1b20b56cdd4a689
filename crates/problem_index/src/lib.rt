//! Where the actions and the objects of a problem stand, by their words, and the objects of each of its types.
//!
//! Stands on `htn_base` and `plan_model` with the definitions of its `plan_meaning`. The contracts used above: `Index::action` finds
//! the action of a name, `Index::object` the object of a word, where it is in a type, and `World::domain` is what a
//! quantifier over a type goes over: its objects, in a list that is made once. `PrintedIndex::find` tells what the name of a
//! printed action stands for: an action, the check of a method, or a method.
#![tactic(auto)]

mod by_type;
mod domain;
mod index;
mod kinds;
mod named;
mod places;
mod printed;
mod printed_index;
mod words;
mod world;

pub use domain::Domain;
pub use index::Index;
pub use kinds::Kinds;
pub use named::Named;
pub use places::Places;
pub use printed::printed_words;
pub use printed_index::{PrintedIndex, PrintedName};
pub use words::Words;
pub use world::World;
