//! Files and sinks in memory, for tests: steady ones that never fail, and ones with a script of the calls that fail.
//!
//! Stands on the traits of `outside_io`. Of each call the whole new value is told, by one equation: `SteadyFiles` and `SteadySink` never
//! fail, `MemFiles` and `MemSink` are these with a script.
#![tactic(auto)]

mod mem_files;
mod mem_sink;
mod script;
mod steady_files;
mod steady_sink;

pub use mem_files::MemFiles;
pub use mem_sink::MemSink;
pub use steady_files::SteadyFiles;
pub use steady_sink::SteadySink;
