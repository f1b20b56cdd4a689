//! Laws of narrowed machines, each the contract of a function that does nothing.
//!
//! `of` is any value that the picked network is made of.

ghost use Rattle.plan_model.specs.task_networks.Lawful.{IsLawful};
ghost use Rattle.schedules.specs.ruled.Laws.{TakesPickedFronts, PickedIsTheOnlyOne, FewPendingHavePicked, PickedPlansAreSolutions, OnePlanForEachSchedule};

use crate::ruled::machine::{NarrowedMachine, PickedExecution, Picking};

/// A machine that at picked fronts takes what may be taken and is picked takes exactly the picked fronts.
pub fn takes_picked_fronts<M: NarrowedMachine, T>(of: &T)
    requires lawful { IsLawful M.net }
    ensures { TakesPickedFronts M.net M.picks M.fits M.takes }
{}

/// Where one choice of new slots is picked at most, a front has one picked list at most.
pub fn picked_is_the_only_one<P: Picking, T>(of: &T)
    requires lawful { IsLawful P.net }
    ensures { PickedIsTheOnlyOne P.net P.picks }
{}

/// Where some choice is picked whenever there is any, a front has a picked list exactly where never more than the number of slots are pending.
pub fn few_pending_have_picked<P: Picking, T>(of: &T)
    requires lawful { IsLawful P.net }
    ensures { FewPendingHavePicked P.net P.picks }
{}

/// Picked plans are the picked lists of solutions, and each schedule of a solution has one.
pub fn picked_plans_are_solutions<E: PickedExecution, T>(of: &T)
    requires lawful { IsLawful E.net }
    ensures plans { PickedPlansAreSolutions E.net E.picks (E.atom → Type 0)
        E.allows E.next E.first E.goal }
    ensures one { OnePlanForEachSchedule E.net E.picks (E.atom → Type 0)
        E.allows E.next E.first E.goal }
{}
