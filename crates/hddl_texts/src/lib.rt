//! The two texts of an HDDL value in one form for each part, and what they spell.
//!
//! Stands on the definitions of `plan_texts`, and on `pddl_printer`, whose parts it puts: typed lists, formulas, terms,
//! facts, actions. A problem that is printed is taken apart, so that what a PDDL value has too is printed as one. What is
//! put on a sheet is exactly the defined text (`put_hddl_domain`, `put_hddl_problem`), in time linear in it. The contract
//! used above: `hddl_texts` gives both texts wherever neither is longer than the limit, else the length of the first that
//! is. The laws used above: the two texts of a sound problem spell it, but for the ids of subtasks
//! (`printed_hddl_spells`), and so is each value alike that they spell (`printed_hddl_is_read_alike`); what any two texts
//! spell can be printed so (`spelled_are_of_two_texts`).
#![tactic(auto)]

mod laws;
mod lines;
mod networks;
mod pages;
mod problem;
mod texts;
mod words;

pub use laws::{printed_hddl_is_read_alike, printed_hddl_spells, spelled_are_of_two_texts};
pub use pages::{put_hddl_domain, put_hddl_problem};
pub use problem::PrintedProblem;
pub use texts::{Printed, Texts, hddl_texts};
