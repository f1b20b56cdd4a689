//! The laws of every network, each the contract of a function that does nothing.
//!
//! `of` is any value that the picked network is made of.

ghost use Rattle.plan_model.specs.task_networks.Laws.{LineIsTheOnlyOne, PreparedIsLawful, RootStandsFirst, NothingIsPendingAtTheEnd, EarlierSubtreesStandBefore, PendingIsComputed, WidthIsComputed, TheBoundIsLargeEnough, LiftedBoundIsBound, RankedIsTailRecursive, NamedCycleIsTheOnlyOne};

use crate::task_networks::network::{Edges, Lifting, Network};

/// A method has one line at most.
pub fn line_is_the_only_one<N: Network, T>(of: &T)
    ensures { LineIsTheOnlyOne N.net }
{}

/// A network whose heirs and copiers are those of its orders is lawful.
pub fn prepared_is_lawful<N: Network, T>(of: &T)
    ensures { PreparedIsLawful N.net }
{}

/// In a schedule the root stands first.
pub fn root_stands_first<N: Network, T>(of: &T)
    ensures { RootStandsFirst N.net }
{}

/// Nothing is pending after the last step of a front without open leaves.
pub fn nothing_is_pending_at_the_end<N: Network, T>(of: &T)
    ensures { NothingIsPendingAtTheEnd N.net }
{}

/// Where an earlier sibling must precede, its whole subtree is processed and stands before.
pub fn earlier_subtrees_stand_before<N: Network, T>(of: &T)
    ensures { EarlierSubtreesStandBefore N.net }
{}

/// The computed list of what is pending has the pending nodes, and its length gives the width.
pub fn pending_is_computed<N: Network, T>(of: &T)
    ensures nodes { PendingIsComputed N.net }
    ensures width { WidthIsComputed N.net }
{}

/// The bound of each task is at least what each block counts, so it bounds the width.
pub fn the_bound_is_large_enough<N: Network, T>(of: &T)
    ensures { TheBoundIsLargeEnough N.net }
{}

/// Numbers of schemas that are large enough are so for the ground works.
pub fn lifted_bound_is_bound<L: Lifting, T>(of: &T)
    ensures { LiftedBoundIsBound L.net L.lifted L.work L.method }
{}

/// A problem with a lawful ranking has no bad cycle.
pub fn ranked_is_tail_recursive<E: Edges, T>(of: &T)
    ensures { RankedIsTailRecursive E.source E.target E.edges E.bad }
{}

/// Where each edge is listed once, one bad cycle at most is the named one.
pub fn named_cycle_is_the_only_one<E: Edges, T>(of: &T)
    ensures { NamedCycleIsTheOnlyOne E.source E.target E.edges E.bad }
{}
