//! The laws of all that a decoder keeps, in its own words, each the contract of a function that does nothing.
//!
//! `of` is any value that the picked network is made of.

ghost use Rattle.plan_model.specs.task_networks.Lawful.{IsLawful};
ghost use Rattle.decoding.specs.KeepingLaws.{KeptAtFirst, KeepingTells, KeepsWithChildren, KeepsWithout, WalkGoesUp, WalkIsOver};

use plan_model::task_networks::Network;

/// At first slot 1 holds the top work.
pub fn kept_at_first<N: Network, T>(of: &T)
    requires lawful { IsLawful N.net }
    ensures { KeptAtFirst N.net }
{}

/// What is kept answers the tests of an act.
pub fn keeping_tells<N: Network, T>(of: &T)
    requires lawful { IsLawful N.net }
    ensures { KeepingTells N.net }
{}

/// An act is taken: with children at once, without children its growth is whole.
pub fn keeping_follows<N: Network, T>(of: &T)
    requires lawful { IsLawful N.net }
    ensures with_children { KeepsWithChildren N.net }
    ensures without { KeepsWithout N.net }
{}

/// From a growth that is whole to its parent, until the numbers say that one is not whole, or the root is.
pub fn walk_goes_up<N: Network, T>(of: &T)
    requires lawful { IsLawful N.net }
    ensures goes { WalkGoesUp N.net }
    ensures over { WalkIsOver N.net }
{}
