//! Which compiled problems have a bound, and what it bounds: each is tail-recursive or has one named bad cycle,
//! the tail-recursive ones and no others have a bound, and no schedule of any front has more pending than that.
//!
//! The definitions are those of `plan_model::plan_meaning`. The proofs are over any network with finitely many methods, whose edges and
//! bound are defined here for them (`NetworkEdges`, `NetworkBound`, `Finite`): a compiled problem's network of schemas is one, and the
//! ground network of what is reached another. For the width of fronts they stand on the machine of slots. The contract used above:
//! `every_front_is_within_the_bound`, which says what a bound is for.

mod laws;

pub use laws::{
    every_front_is_within_the_bound, ranked_exactly, tail_recursive_has_one_bound,
    tail_recursive_or_bad_cycle,
};
