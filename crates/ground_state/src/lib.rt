//! Truth, steps and runs, computed: a state of ground atoms, whether a formula is true in it, the state after an effect,
//! and whether a list of ground actions is a plan.
//!
//! Stands on `htn_base`, `problem_index`, and `plan_model` with the definitions of its `plan_meaning`. The contracts used above:
//! `holds` answers whether a formula is true in a state, `State::apply` goes to the state after an effect, `Run::take` takes one
//! step of a plan or says why it can't be taken, so that no plan need be held, and `run_plan` tells plans from other lists, with
//! the first step that fails and why.
//!
//! A state has numbers of predicates and objects alone, and the calls take the types and the objects that these are
//! numbers of. So they serve a printed problem, a source problem and a compiled one alike: `State::new` of the value's
//! `init`, an `Env` with the objects of an action's or a method's parameters, `holds` for a condition or the goal, and
//! `State::apply` for an action's effect. Over a `World` of `problem_index`, which knows the objects of each type, `is_true` and
//! `State::apply_in` do the same quickly, `fill` puts the objects of words in force, and `Need::of_compiled` is the room that an
//! environment needs for all conditions and effects of a compiled problem. Where atoms are only added, `Additions` tells which ones an
//! effect adds, and `State::add` puts one to the set.
#![tactic(auto)]

mod additions;
mod arguments;
mod atom_list;
mod change;
mod env;
mod gather;
mod need;
mod notes;
mod numbers;
mod passes;
mod plain;
mod run;
mod state;
mod step;
mod truth;
mod verdict;

pub use additions::Additions;
pub use arguments::fill;
pub use atom_list::KeptAtom;
pub use env::Env;
pub use need::Need;
pub use plan_model::FailWhy;
pub use run::{Run, run_plan};
pub use state::State;
pub use truth::{holds, is_true};
pub use verdict::Verdict;
