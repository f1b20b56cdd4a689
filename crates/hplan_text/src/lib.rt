//! Hierarchical plans as texts, in the format of the planning competition of 2020.
//!
//! Stands on `text_forms` for sheets and faults, on `tree_core` and `plan_model` for trees, and on `htn_base`. The contract used
//! above: `print` puts the text of a plan on a sheet, byte for byte as `specs/HPlanText` has it. `read` answers a plan exactly
//! where the text has no fault, and then the text spells it, and no other (`a_text_spells_one_hplan`); else the least fault by
//! phase, place and code (`specs/HPlanFaults`). What is printed of a plan that is sound and printable is read back as it was
//! (`printed_plans_are_read_back`). `show` gives the plan that a finished tree and its order show
//! (`specs/ShownPlan`), and they show no other (`each_tree_shows_one_plan`); of a sound problem this plan is sound and printable, so
//! its text is read back (`shown_plans_are_read_back`).
#![tactic(auto)]

mod draft;
mod ids;
mod judging;
mod laws;
mod least;
mod lines;
mod mention;
mod printing;
mod reaching;
mod reading;
mod rows;
mod showing;
mod values;
mod words;

pub use laws::{a_text_spells_one_hplan, printed_plans_are_read_back};
pub use printing::print;
pub use reading::read;
pub use showing::{each_tree_shows_one_plan, show, shown_plans_are_read_back};
pub use values::{HLine, HNode, HPlan};
