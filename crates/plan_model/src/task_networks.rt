//! The abstract definitions of hierarchical planning, over any task network: orders, networks, trees, schedules, fronts, spellings, bounds.
//!
//! They stand in specs/task_networks, in reading order in `specs/task_networks.antt`. No Rust type is in them, and nothing of the
//! values of a problem: they stand on std and on what `htn_base` calls lists of different elements.
//! Crates above cite the definitions, and call a law for a network of theirs; proofs/task_networks has the lemmas on these notions.

mod laws;
mod network;

pub use laws::{
    earlier_subtrees_stand_before, lifted_bound_is_bound, line_is_the_only_one,
    named_cycle_is_the_only_one, nothing_is_pending_at_the_end, pending_is_computed,
    prepared_is_lawful, ranked_is_tail_recursive, root_stands_first, the_bound_is_large_enough,
};
pub use network::{Edges, Lifting, Network};
