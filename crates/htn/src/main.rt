//! The program: it ends with the status of what its arguments ask.
//!
//! Stands on `htn_cli`: `ending` reads the arguments and calls `run` over the real files and streams, and `run` carries what is promised
//! to a user.
#![tactic(auto)]

use htn_cli::ending;
use std::process::ExitCode;

fn main(rt: HostRuntime) -> ExitCode {
    ExitCode::from(ending(rt))
}
