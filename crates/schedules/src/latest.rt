//! The latest schedule of a decomposition tree whose primitives come in a given order: gap functions, what one pass over the tree
//! finds, the queue that writes the schedule, and which trees and schedules show the lines of a plan.
//!
//! A plan lists the nodes of its primitives in their order, and gap i is the time before primitive number i. Which node may stand
//! in which gap is a parameter (`Placement`, `Telling`).

mod laws;
mod placement;
mod queue_laws;
mod shown_laws;
mod telling;

pub use laws::{
    gaps_have_schedule, greater_is_gap_function, greatest_gap_is_found, latest_or_none,
    latest_schedule_is_the_only_one, one_pass_is_latest, placed_exactly_where_latest,
    placed_induces_gaps, schedule_is_placed,
};
pub use placement::Placement;
pub use queue_laws::{available_are_due, counters_tell, next_is_first_queued};
pub use shown_laws::{shown_exactly_where_in_order, shown_exactly_where_latest, trees_are_alike};
pub use telling::Telling;
