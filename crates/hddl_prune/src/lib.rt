//! A problem without the actions, methods and tasks that no solution uses.
//!
//! Stands on the laws of `live_parts`, which say what is live, what is kept, and that the solutions stay the same. The contract for
//! the layer above: the pruned value has exactly what is kept, and it is refused exactly where the top method isn't live or the goal
//! can't be so (`prune`). What is live, and what is reached, is spread along what waits for it (`spreading`); that nothing is left out is
//! told by a last look at everything (`live`, `reach`).
#![tactic(auto)]

mod adding;
mod chosen;
mod copies;
mod joined;
mod live;
mod marks;
mod may;
mod pruning;
mod reach;
mod spreading;
mod waiting;

pub use pruning::{PruneError, prune};
