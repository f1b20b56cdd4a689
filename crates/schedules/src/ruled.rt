//! Rules for the new slots of a method: of the acts that the machine of slots may take, those that a rule picks, and the rule of the
//! lowest free slots, by which each schedule with few pending has exactly one list of acts.
//!
//! A rule looks at the method, at its slot and at which slots are free (`SlotRule`), or at all acts before (`Picking`).

mod first_free;
mod laws;
mod machine;

pub use first_free::{
    first_free_plans_are_solutions, lowest_slots_are_a_rule, picked_are_following,
    ruled_runs_are_picked, ruled_takes_picked,
};
pub use laws::{
    few_pending_have_picked, picked_is_the_only_one, picked_plans_are_solutions,
    takes_picked_fronts,
};
pub use machine::{NarrowedMachine, PickedExecution, Picking, RuledMachine, SlotRule};
