//! The proof about plans with first-free slots: the plans of the printed problem spell the schedules of the solutions with the lowest
//! free slots, one list for each schedule, for every value of the source texts.
//!
//! A state of this problem reads as one of the problem with any free slots, and its further conditions as the rule of the lowest free
//! slots over the machine of slots. So it stands on the proof of `plan_proof`, on the laws of rules of `schedules` and on the printed
//! problem of `slot_encoding`; it has no code but laws. The contracts used above are said by the rule for slots: `headline_by`,
//! `headline_at_bound_by`, `one_pair_of_texts_by`, `some_pair_of_texts_by`, `printed_for_each_by`; and, of the lowest free slots alone,
//! `each_schedule_has_one_plan`.
#![tactic(auto)]

mod plan_laws;
mod print_laws;
mod value_laws;

pub use plan_laws::{
    each_schedule_has_one_spelling, first_texts_are_faithful, first_texts_lose_nothing,
    first_value_is_faithful,
};
pub use print_laws::{one_pair_of_texts_by, printed_texts_are_the_pair_by, some_pair_of_texts_by};
pub use value_laws::{
    each_schedule_has_one_plan, headline_at_bound_by, headline_by, printed_for_each_by,
};
