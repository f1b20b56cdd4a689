//! The laws of printed steps, each the contract of a function that does nothing.

ghost use Rattle.plan_model.specs.task_networks.Lawful.{IsLawful};
ghost use Rattle.plan_model.specs.plan_meaning.Network.{network};
ghost use Rattle.decoding.specs.CompiledLaws.{CompiledAreReadInOneWay};
ghost use Rattle.decoding.specs.PrintedLaws.{SpellingsAreRead, EachIsSolutionOrFails, WordsApartAreSound, ReadIsGround};

use plan_model::Compiled;

/// A list of ground actions spells a solution, or it fails at one step for one first cause, and not both.
pub fn each_list_is_a_solution_or_fails(compiled: &Compiled)
    requires lawful { IsLawful (network compiled.now) }
    ensures read { SpellingsAreRead compiled.now }
    ensures one { EachIsSolutionOrFails compiled.now }
{}

/// Where the words of a compiled value are apart, a step is read in one way at most.
pub fn words_apart_are_sound(compiled: &Compiled)
    ensures { WordsApartAreSound compiled.now }
{}

/// Of a method that is read its constraints and the types of its children's arguments are what is left to ask.
pub fn read_is_ground(compiled: &Compiled)
    ensures { ReadIsGround compiled.now }
{}

/// The steps of a problem that is compiled of a sound one are read in one way at most.
pub fn compiled_are_read_in_one_way(compiled: &Compiled)
    ensures { CompiledAreReadInOneWay compiled.now }
{}
