//! The laws of the steps that a decoder has taken, each the contract of a function that does nothing.

ghost use Rattle.plan_model.specs.task_networks.Lawful.{IsLawful};
ghost use Rattle.plan_model.specs.plan_meaning.Network.{network};
ghost use Rattle.decoding.specs.TakenLaws.{TakenAtFirst, TakenTells, OneMoreTaken, EndIsTold};

use plan_model::Compiled;

/// At first no step is taken, and one more step goes behind those taken.
pub fn steps_are_taken(compiled: &Compiled)
    requires lawful { IsLawful (network compiled.now) }
    ensures at_first { TakenAtFirst compiled.now }
    ensures one_more { OneMoreTaken compiled.now }
{}

/// The tests of a step tell its first cause, and those of the end theirs, or a solution.
pub fn tests_tell(compiled: &Compiled)
    requires lawful { IsLawful (network compiled.now) }
    ensures step { TakenTells compiled.now }
    ensures end { EndIsTold compiled.now }
{}
