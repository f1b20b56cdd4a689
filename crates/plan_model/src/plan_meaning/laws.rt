//! The laws of problems, each the contract of a function that does nothing.

ghost use Rattle.plan_model.specs.task_networks.Lawful.{IsLawful};
ghost use Rattle.plan_model.specs.plan_meaning.Network.{network};
ghost use Rattle.plan_model.specs.plan_meaning.Compilation.{IsCompiled};
ghost use Rattle.plan_model.specs.plan_meaning.FailingStep.{AreNamedApart};
ghost use Rattle.plan_model.specs.plan_meaning.Laws.{AreOrdered, PrefixIsExecutable, BoundIsTheOnlyOne, EachIsPlanOrFails};

use crate::{Checks, Compiled, Hddl, Pddl};

/// The network of a compiled problem has the laws that the machine of slots asks for.
pub fn compiled_network_is_lawful(problem: &Hddl, checks: &Checks, compiled: &Compiled)
    requires ordered { AreOrdered problem.now }
    requires compiled { IsCompiled problem.now checks.now compiled.now }
    ensures { IsLawful (network compiled.now) }
{}

/// A prefix of an executable list of ground actions is executable.
pub fn prefix_is_executable(problem: &Pddl)
    ensures { PrefixIsExecutable problem.now }
{}

/// A compiled problem has one bound at most.
pub fn bound_is_the_only_one(problem: &Hddl, checks: &Checks, compiled: &Compiled)
    requires compiled { IsCompiled problem.now checks.now compiled.now }
    ensures { BoundIsTheOnlyOne compiled.now }
{}

/// A list of ground actions is a plan, or it fails at one step for one cause, and not both, where no two actions have
/// one word and no two objects.
pub fn each_list_is_a_plan_or_fails(problem: &Pddl)
    requires apart { AreNamedApart problem.now }
    ensures { EachIsPlanOrFails problem.now }
{}
