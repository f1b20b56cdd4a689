//! Laws of the queue that finds the next node, each the contract of a function that does nothing.

ghost use Rattle.schedules.specs.latest.Laws.{IsOrderDecided};
ghost use Rattle.schedules.specs.latest.Queue.{HasPairsOfChildren, AvailableAreDue, CountersStart, CountersTell, TakingMakesWhole, CountersFall, NothingIsLate, NextIsFirstQueued, ThenThePrimitive};

use crate::latest::placement::Placement;

/// What is available, by the direct pairs alone, is what can be taken; the counters begin with the children and the direct pairs.
pub fn available_are_due<P: Placement, T>(of: &T)
    requires pairs { HasPairsOfChildren P.net }
    ensures due { AvailableAreDue P.net P.allowed }
    ensures start { CountersStart P.net P.allowed }
{}

/// Counters of open children and of blockers tell what is whole and available, and a step changes those on the way up alone.
pub fn counters_tell<P: Placement, T>(of: &T)
    ensures tell { CountersTell P.net P.allowed }
    ensures whole { TakingMakesWhole P.net P.allowed }
    ensures fall { CountersFall P.net P.allowed }
{}

/// The next node of the schedule is the first available one by gap and in preorder, where its gap has come, and else the primitive.
pub fn next_is_first_queued<P: Placement, T>(of: &T)
    requires decided { IsOrderDecided P.net }
    requires pairs { HasPairsOfChildren P.net }
    ensures late { NothingIsLate P.net P.allowed }
    ensures first { NextIsFirstQueued P.net P.allowed }
    ensures primitive { ThenThePrimitive P.net P.allowed }
{}
