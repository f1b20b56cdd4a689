//! The values that parameters can have, where some are known: each list of objects of their types that agrees with what is known, in
//! lexicographic order.
//!
//! Stands on `plan_model` for types and objects, and on the world of `problem_index`. The contracts used above: `bind_terms` tells what
//! is known of values when terms stand for objects, `Choice::first` chooses the first values, where there are some, `Choice::advance`
//! goes on to the next ones, until there are no more, and `first_values` gives the first ones that meet constraints. `only_values` gives
//! the only ones where all are known. `is_declared` tells whether objects are of the types that are declared for a task or an action.
#![tactic(auto)]

mod binding;
mod choice;
mod constraints;
mod declared;
mod meeting;
mod only;
mod range;

pub use binding::bind_terms;
pub use choice::Choice;
pub use constraints::meets;
pub use declared::is_declared;
pub use meeting::first_values;
pub use only::{Only, only_values};
