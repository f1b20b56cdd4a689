//! The laws of the numbers that a decoder keeps of a front, each the contract of a function that does nothing.
//!
//! `of` is any value that the picked network is made of.

ghost use Rattle.plan_model.specs.task_networks.Lawful.{IsLawful};
ghost use Rattle.decoding.specs.CountedLaws.{CountedAtFirst, CountTellsWaiting, StepCounts};

use plan_model::task_networks::Network;

/// At first nothing waits.
pub fn counted_at_first<N: Network, T>(of: &T)
    ensures { CountedAtFirst N.net }
{}

/// A number tells whether what a slot holds waits.
pub fn count_tells_waiting<N: Network, T>(of: &T)
    requires lawful { IsLawful N.net }
    ensures { CountTellsWaiting N.net }
{}

/// How the numbers follow a step: with children at once, and without along the way from the leaf to the root, as far as
/// subtrees become whole.
pub fn step_counts<N: Network, T>(of: &T)
    requires lawful { IsLawful N.net }
    ensures { StepCounts N.net }
{}
