//! The laws of the steps of a stack, each the contract of a function that does nothing.

ghost use Rattle.plan_model.specs.task_networks.Lawful.{IsLawful};
ghost use Rattle.plan_model.specs.plan_meaning.Network.{network};
ghost use Rattle.stack_machine.specs.Stack.{IsTotal};
ghost use Rattle.stack_decoding.specs.StackStepLaws.{EachStepIsOfOneAct, EachIsSolutionOrFails};

use plan_model::Compiled;

/// A step is that of one act at most.
pub fn steps_are_of_one_act(compiled: &Compiled)
    requires lawful { IsLawful (network compiled.now) }
    requires total { IsTotal (network compiled.now) }
    ensures { EachStepIsOfOneAct compiled.now }
{}

/// A list of ground actions spells a solution, or it fails at one step for one first cause, and not both.
pub fn each_list_is_a_solution_or_fails(compiled: &Compiled)
    requires lawful { IsLawful (network compiled.now) }
    requires total { IsTotal (network compiled.now) }
    ensures { EachIsSolutionOrFails compiled.now }
{}
