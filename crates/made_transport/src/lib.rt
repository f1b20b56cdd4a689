//! Made problems of Transport: k packages that one truck brings from one place to another, as two HDDL texts, and a hierarchical plan of
//! each.
//!
//! Stands on `hplan_text` for the values of plans, and on `htn_base`; `plan_model` and `plan_texts` have what definitions and proofs say of
//! lists. The contract used above: `made` gives the texts and the plan as `specs/Made` has them. The plan is sound and printable, and has
//! no more lines than a plan that is read; the texts are no longer than texts that are read.
#![tactic(auto)]

mod making;
mod nodes;
mod parts;
mod steps;
mod texts;
mod values;

pub use making::made;
pub use values::Made;
