//! The laws of the machine, each the contract of a function that does nothing.
//!
//! `of` is any value that the picked network is made of.

ghost use Rattle.plan_model.specs.task_networks.Lawful.{IsLawful};
ghost use Rattle.slot_machine.specs.Laws.{RunsAreSpelledFronts, FrontIsTheOnlyOne, StateTellsFront, PendingAreOpenLeaves, FewPendingHaveSpellings, CausesAreSentences, LabelsAreOfActs, OtherTakesFronts, WidthIsBounded, RunsAreExecutableFronts, PlansAreSpelledSolutions};

use crate::machine::{Execution, OtherMachine};
use plan_model::task_networks::Network;

/// A list of acts is a run from the start exactly where it spells a front.
pub fn runs_are_spelled_fronts<N: Network, T>(of: &T)
    requires lawful { IsLawful N.net }
    ensures { RunsAreSpelledFronts N.net }
{}

/// A list of acts spells one front, with one slot for each of its nodes.
pub fn front_is_the_only_one<N: Network, T>(of: &T)
    requires lawful { IsLawful N.net }
    ensures { FrontIsTheOnlyOne N.net }
{}

/// After a run the slots hold the works of the open leaves, and the order pairs say what must precede what.
pub fn state_tells_front<N: Network, T>(of: &T)
    requires lawful { IsLawful N.net }
    ensures { StateTellsFront N.net }
{}

/// After a whole schedule what is pending are the open leaves.
pub fn pending_are_open_leaves<N: Network, T>(of: &T)
    ensures { PendingAreOpenLeaves N.net }
{}

/// A front has a spelling exactly where never more than the number of slots are pending.
pub fn few_pending_have_spellings<N: Network, T>(of: &T)
    requires lawful { IsLawful N.net }
    ensures { FewPendingHaveSpellings N.net }
{}

/// An act may be taken exactly where the sentences on the front allow it.
pub fn causes_are_sentences<N: Network, T>(of: &T)
    requires lawful { IsLawful N.net }
    ensures { CausesAreSentences N.net }
{}

/// What is asked of the labels of a schedule can be asked of the acts that spell it.
pub fn labels_are_of_acts<N: Network, T>(of: &T)
    ensures { LabelsAreOfActs N.net }
{}

/// Executable runs are the spelled fronts that are executable, and plans are the spelled solutions.
pub fn plans_are_spelled_solutions<E: Execution, T>(of: &T)
    requires lawful { IsLawful E.net }
    ensures fronts { RunsAreExecutableFronts E.net (E.atom → Type 0)
        E.allows E.next E.first E.goal }
    ensures plans { PlansAreSpelledSolutions E.net (E.atom → Type 0)
        E.allows E.next E.first E.goal }
{}

/// Another machine whose steps agree at fronts takes the same lists of acts.
pub fn other_takes_fronts<M: OtherMachine, T>(of: &T)
    requires lawful { IsLawful M.net }
    ensures { OtherTakesFronts M.net M.read M.takes }
{}

/// No schedule of any front has more pending than the root's number.
pub fn width_is_bounded<N: Network, T>(of: &T)
    ensures { WidthIsBounded N.net }
{}
