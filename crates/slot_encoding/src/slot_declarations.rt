//! What the printed problem declares: its words, types, objects and predicates, and the numbers by which the other parts name them.
//!
//! It stands on the values of `plan_model` and on the definitions of this crate. The contracts used above: `vocabulary_of` is a
//! table with all words of the printed problem, which begins with the source's, so that a source name keeps its number (`renamed`);
//! `basis_of` gives the numbers of predicates and slots; a `Frame` holds both, and from it all parts are made, the declarations here
//! (`declarations_of`), and the names, parameters and predicates that the others ask for.

mod basis;
mod declarations;
mod frame;
mod guards;
mod numbers;
mod objects;
mod params;
mod predicates;
mod schema_words;
mod types;
mod vocabulary;
mod words;

pub use basis::{Basis, Checks, basis_of};
pub use declarations::{Declarations, declarations_of};
pub use frame::Frame;
pub use guards::{guard_predicate, guard_types};
pub use numbers::{Numbers, plus, task_predicate};
pub use params::{push_params, source_params};
pub use predicates::slot_param;
pub use vocabulary::vocabulary_of;
pub use words::{named, numbered, prefixed, renamed};
