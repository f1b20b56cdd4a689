//! The program once more, for a recorded run that is refused: a file that isn't there. Nothing is on standard output, and the status is that
//! of a file that can't be read.
//!
//! Stands on `htn_cli`.
#![tactic(auto)]

use htn_cli::ending;
use std::process::ExitCode;

fn main(rt: HostRuntime) -> ExitCode {
    ExitCode::from(ending(rt))
}
