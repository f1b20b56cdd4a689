//! The compiled value of a problem (`method_precs`), its strata (`stratifier`), and its bound: how many tasks, actions and checks can
//! be pending at most; or why there is none to tell: the words of the bad cycle that is named, or that it is too great.
//!
//! Stands on the definitions of `plan_texts`, and `plan_model` with its `net_order` and those of `task_networks` and `plan_meaning`;
//! that there is a bound is a law of `slot_machine::bound_laws`. The contracts used above: `method_precs::compile` gives the
//! compiled value, and its network is lawful; a tail-recursive problem has strata, and any other the named cycle
//! (`stratifier::stratify`); the number is the defined bound, it is refused exactly where it has more than 128 bits (`bound`), and
//! each refusal has its cause (`problem_bound`).
#![tactic(auto)]

mod blocks;
mod by_rank;
mod cycle;
mod finding;
mod groups;
mod laws;
pub mod method_precs;
pub mod stratifier;

pub use cycle::cycle_words;
pub use finding::{NoBound, problem_bound};
pub use groups::{BoundError, bound};
pub use laws::compiled_methods_have_lines;
