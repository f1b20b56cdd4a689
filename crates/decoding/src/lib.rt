//! Laws that a decoder of plans stands on: where a list of steps fails to spell a solution and why (`failing`), over printed words
//! (`printed_steps`), when an open leaf waits (`waiting`), what is kept of a front (`held`), what is counted (`counted`), both together (`keeping`),
//! and what the tests of a step and of the end say of it (`steps`).
//!
//! Nothing here runs; the one type is that of the causes, `Why`. `printed_steps` lays the causes over the words of the printed
//! problem, and is the promise of a decoder; the
//! others say, of any lawful network, what its tests and its numbers tell of the front.
#![tactic(auto)]

mod causes;
pub mod counted;
pub mod failing;
pub mod held;
pub mod keeping;
mod machine;
pub mod printed_steps;
pub mod steps;
pub mod waiting;

pub use causes::Why;
pub use machine::Reading;
