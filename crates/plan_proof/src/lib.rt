//! The proof about plans: the plans of the printed problem spell the schedules of the solutions, for every value of the source texts.
//!
//! Five steps, each a file of laws: two texts have the plans of each value that they spell (`text_laws`); the plans of the printed
//! problem are the runs of the machine of slots, over the words of the source (`plan_laws`); the one printed problem serves every value
//! of the two source texts (`value_laws`); two source texts have one pair of printed texts, and one bound or one named cycle, whatever
//! they are read as (`print_laws`); and, of two small problems, which plans they have (`row_laws`).
//!
//! It stands on the printed problem of `slot_encoding` and its one pair of texts, on the laws of `slot_machine` and on
//! the spelling of `plan_texts`, and has no code but laws; no code but the run stands on it. The contracts used above: `headline`,
//! `headline_at_bound`; and that the answer of a run is one: `one_pair_of_texts`, `some_pair_of_texts`, `one_bound_or_cycle_of_texts`.
#![tactic(auto)]

mod plan_laws;
mod print_laws;
mod row_laws;
mod text_laws;
mod value_laws;

pub use plan_laws::{
    executables_spell_fronts, plans_spell_solutions, spellings_fit_slots, texts_are_faithful,
    texts_lose_nothing, value_is_faithful,
};
pub use print_laws::{
    every_problem_has_one_compiled_value, one_bound_or_cycle_of_texts, one_compiled_value,
    one_pair_of_texts, printed_texts_are_the_pair, some_pair_of_texts,
};
pub use row_laws::{calls_itself_has_no_plan, smallest_has_one_plan};
pub use text_laws::{
    alike_plans, plans_of_texts, printed_executables, printed_plans, spelled_sound,
};
pub use value_laws::{headline, headline_at_bound, printed_for_each, values_are_same_but_names};
