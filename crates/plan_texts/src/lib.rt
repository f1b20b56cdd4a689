//! What texts of HDDL and PDDL spell, when values are alike, and what is printed for a PDDL value.
//! It stands on the values of `plan_model` and on the nested lists of `text_forms`, and has no code but laws.
//! Readers, the binding of names and printers are to be proved against these definitions. The laws: all
//! values that two texts spell are alike, and the printed texts of a printable value spell it.
#![tactic(auto)]

mod alike;
mod ordered;
mod plans;
mod printed;

pub use alike::{
    alike_hddl_reflexive, alike_hddl_symmetric, alike_hddl_transitive, alike_pddl_reflexive,
    alike_pddl_symmetric, alike_pddl_transitive, spelled_hddl_alike, spelled_pddl_alike,
};
pub use ordered::{one_order, ordered_types_spelled};
pub use plans::plan_law;
pub use printed::{printed_spells, read_back_alike};
