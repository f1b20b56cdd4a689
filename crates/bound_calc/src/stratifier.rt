//! The strata of a compiled problem: which tasks are reached from the top, the edges between them and
//! which are bad, the groups of tasks that reach each other, ranks, and the bad cycle that is named.
//!
//! Stands on the definitions of `plan_model` and its `net_order`. The contract used above: a tail-recursive problem has strata, and any
//! other the named cycle (`stratify`).

mod all_edges;
mod bad;
mod by_task;
mod edge;
mod finishing;
mod groups;
mod last;
mod laws;
mod named;
mod ranks;
mod reach;

pub use all_edges::edges;
pub use bad::bad_marks;
pub use by_task::methods_by_task;
pub use edge::Edge;
pub use laws::compiled_networks_have_no_cycle;
pub use ranks::{Ranks, StratError, stratify};
pub use reach::reached;
