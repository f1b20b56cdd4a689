//! The laws, each the contract of a function that does nothing. `read` is a value of the two source texts.

ghost use Rattle.plan_model.specs.plan_meaning.Laws.{AreOrdered};
ghost use Rattle.plan_texts.specs.FirstSeen.{IsHddlOf};
ghost use Rattle.plan_texts.specs.SoundProblem.{IsSoundProblem};
ghost use Rattle.pruned_answers.specs.PruneLaws.{ArePrunedAlike, HaveOneOutcome, IsPrunedSomehow};
ghost use Rattle.pruned_answers.specs.PrunedTexts.{PrunedTextsSpell, PrunedTextsKeepPlans, RefusedHaveNoSolution};

use plan_model::Hddl;

/// The values of two texts are pruned alike: the same is live and kept, told and printed of all, or none can be solved.
pub fn values_are_pruned_alike(domain: &[u8], problem: &[u8], read: &Hddl, other: &Hddl)
    requires spelled { IsHddlOf domain.now problem.now read.now }
    requires other_spelled { IsHddlOf domain.now problem.now other.now }
    requires sound { IsSoundProblem read.now }
    ensures alike { ArePrunedAlike read.now other.now }
    ensures one { HaveOneOutcome read.now other.now }
{}

/// A problem is pruned, or cannot be solved.
pub fn each_is_pruned_somehow(read: &Hddl)
    requires sound { IsSoundProblem read.now }
    ensures { IsPrunedSomehow read.now }
{}

/// The texts that are printed of a pruned problem spell it, but for the ids of subtasks.
pub fn pruned_texts_spell(domain: &[u8], problem: &[u8], read: &Hddl)
    requires spelled { IsHddlOf domain.now problem.now read.now }
    requires sound { IsSoundProblem read.now }
    requires ordered { AreOrdered read.now }
    ensures { PrunedTextsSpell read.now }
{}

/// And they have the plans of the problem, at the same number of slots.
pub fn pruned_texts_keep_plans(domain: &[u8], problem: &[u8], read: &Hddl)
    requires spelled { IsHddlOf domain.now problem.now read.now }
    requires sound { IsSoundProblem read.now }
    requires ordered { AreOrdered read.now }
    ensures { PrunedTextsKeepPlans read.now domain.now problem.now }
{}

/// Texts that cannot be solved, as pruning tells, have no solution and no plan.
pub fn no_solution_of_texts(domain: &[u8], problem: &[u8], read: &Hddl)
    requires spelled { IsHddlOf domain.now problem.now read.now }
    requires sound { IsSoundProblem read.now }
    requires ordered { AreOrdered read.now }
    ensures { RefusedHaveNoSolution read.now domain.now problem.now }
{}
