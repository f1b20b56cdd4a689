//! The words of the command line: the command that they ask for, and the number of slots in it.
//!
//! Stands on the options of `plan_model`. The contract used above: `asked` answers exactly what the words ask for,
//! and `None` exactly where they are of no command's form; `command` gives it as a command.
#![tactic(auto)]

mod asking;
mod bounds;
mod commands;
mod form;
mod forms;
mod level;
mod names;
mod options;
mod words;

pub use asking::{Asked, Bounding, Decoding, Encoding, Making, Pruning, Translation, Validation};
pub use bounds::{Bound, bound_of, comes_to, count_of};
pub use commands::Command;
pub use form::PrintedForm;
pub use level::Level;
pub use names::Named;
pub use words::{asked, command};
