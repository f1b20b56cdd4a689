//! Laws of what a rule picks: the latest schedule of a decomposition tree whose primitives come in a given order (`latest`), and the
//! slots that a schedule is spelled with, as the lowest free ones (`ruled`).
//!
//! Stands on `plan_model::task_networks`, on `slot_machine` and on `htn_base`; nothing here runs, and no states, texts or printed words
//! are in it. The contracts used above are those of an encoder of hierarchical plans: `latest::placed_exactly_where_latest`, the same
//! said of the lines of a plan, `latest::shown_exactly_where_latest`, `latest::next_is_first_queued`, which is the loop that writes the
//! schedule, and `ruled::lowest_slots_are_a_rule`.
#![tactic(auto)]

pub mod latest;
pub mod ruled;
