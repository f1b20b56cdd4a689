//! What the program does: it takes its words, does what they ask over files and streams that may be any, and answers with a status.
//!
//! Stands on all crates below. The contract that carries what is promised to a user is that of `run`, which `ending` calls over the real
//! files and streams. A command is a function of the texts of its inputs, which answers a refusal or an output; one function puts and
//! tells any output. `check` says of a text whether it spells a plan of a PDDL value; `validate` asks it.
#![tactic(auto)]

mod bounding;
mod building;
mod checked;
mod checking;
mod decode;
mod delivery;
mod encode;
mod faults;
mod laws;
mod make;
mod manner;
mod output;
mod problem;
mod process;
mod program;
mod prune;
mod reading;
mod refusal;
mod sending;
mod slots;
mod status;
mod telling;
mod translation;
mod validation;

pub use checked::Checked;
pub use checking::check;
pub use command_words::{Command, command};
pub use laws::{one_answer, some_answer};
pub use process::ending;
pub use program::run;
pub use status::Status;
