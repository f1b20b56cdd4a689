//! States, runs of a step and want of memory, over problems that no text says. Answers were worked out by hand. Truth, effects
//! and plans are tested by texts, in `runs`.

mod memory;
mod plans;
mod problem;
mod states;
