//! What lies outside of the program: files that are read and written whole, and sinks that take bytes; and the real files and sinks.
//!
//! Stands on `htn_base` for `Memory`. The layer above uses the contracts of `Files` and `Sink`: a call fails only where the object's
//! count of faults rises, and what is held, written and passed is told where the implementation tells it. `DiskFiles` and `StdSink` are
//! the real ones. Of what a disk holds nothing is told. They tell each call that passed with what it was answered, and each byte that a
//! stream said it took; a stream tells which one it is. The history exists in proofs alone (`log`). Those in memory stand in `memory_io`.
#![tactic(auto)]

mod disk_files;
mod files;
mod log;
mod sink;
mod std_sink;
mod stream;

pub use disk_files::DiskFiles;
pub use files::{Files, GetError, PutError};
pub use sink::{Sink, WriteError};
pub use std_sink::StdSink;
pub use stream::Stream;
