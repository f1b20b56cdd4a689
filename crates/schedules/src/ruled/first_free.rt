//! Laws of rules for new slots, and of the lowest free slots, each the contract of a function that does nothing.

ghost use Rattle.std.specs.Prelude.{ℕ};
ghost use Rattle.plan_model.specs.task_networks.Lawful.{IsLawful};
ghost use Rattle.schedules.specs.ruled.FirstFreeLaws.{PickedAreFollowing, RuledTakesPicked, RuledRunsArePicked, LowestIsARule, LowestArePicked, LowestExactlyWhereWithin, OneLowestList, LowestAreTheOnlyOnes, LowestSpell, FirstFreePlansAreSolutions, OneFirstFreePlan};

use crate::ruled::machine::{RuledMachine, SlotRule};
use plan_model::task_networks::Network;
use slot_machine::Execution;

/// What a rule picks are the fronts whose slots follow it.
pub fn picked_are_following<R: SlotRule, T>(of: &T)
    requires lawful { IsLawful R.net }
    ensures { PickedAreFollowing R.net R.rule }
{}

/// A machine that agrees with that of slots, with a rule as a further condition, takes the picked fronts.
pub fn ruled_takes_picked<M: RuledMachine, T>(of: &T)
    requires lawful { IsLawful M.net }
    ensures { RuledTakesPicked M.net M.rule M.read M.takes }
{}

/// Runs of the machine of slots with a rule are the picked fronts.
pub fn ruled_runs_are_picked<R: SlotRule, T>(of: &T)
    requires lawful { IsLawful R.net }
    ensures { RuledRunsArePicked R.net R.rule }
{}

/// Lowest free slots are found wherever there are any, and a front is spelled with them by one list.
pub fn lowest_slots_are_a_rule<N: Network, T>(of: &T)
    requires lawful { IsLawful N.net }
    ensures rule { (b : ℕ) (top : N.net.Work) → LowestIsARule N.net b top }
    ensures picked { LowestArePicked N.net }
    ensures fronts { LowestExactlyWhereWithin N.net }
    ensures one { OneLowestList N.net }
    ensures slots { LowestAreTheOnlyOnes N.net }
    ensures spell { LowestSpell N.net }
{}

/// Plans with first-free slots are the spellings of solutions with the lowest slots, one for each schedule that has few pending.
pub fn first_free_plans_are_solutions<E: Execution, T>(of: &T)
    requires lawful { IsLawful E.net }
    ensures plans { FirstFreePlansAreSolutions E.net (E.atom → Type 0)
        E.allows E.next E.first E.goal }
    ensures one { OneFirstFreePlan E.net (E.atom → Type 0) E.allows E.next E.first E.goal }
{}
