//! The laws of what a decoder keeps of a front, each the contract of a function that does nothing.
//!
//! `of` is any value that the picked network is made of.

ghost use Rattle.plan_model.specs.task_networks.Lawful.{IsLawful};
ghost use Rattle.decoding.specs.HeldLaws.{FitsAtFirst, FittingTells, StepFits};

use plan_model::task_networks::Network;

/// At first slot 1 holds the top work.
pub fn fits_at_first<N: Network, T>(of: &T)
    ensures { FitsAtFirst N.net }
{}

/// What is kept tells which slot holds what.
pub fn fitting_tells<N: Network, T>(of: &T)
    requires lawful { IsLawful N.net }
    ensures { FittingTells N.net }
{}

/// A step keeps it.
pub fn step_fits<N: Network, T>(of: &T)
    requires lawful { IsLawful N.net }
    ensures { StepFits N.net }
{}
