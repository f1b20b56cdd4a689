//! Laws of gap functions, each the contract of a function that does nothing.
//!
//! `of` is any value that the picked network is made of.

ghost use Rattle.schedules.specs.latest.Laws.{IsOrderDecided, IsDecided, GreaterIsGapFunction, LatestOrNone, LatestIsTheOnlyOne, OnePassIsLatest, PlacedInducesGaps, GapsHaveSchedule, ScheduleIsPlaced, ScheduleIsTheOnlyOne, PlacedExactlyWhereLatest};
ghost use Rattle.schedules.specs.latest.GreatestGap.{SearchGoesDown, FoundIsGreatest, NothingFits, OwnIsGreatest};

use crate::latest::placement::Placement;

/// The pointwise greater of two gap functions is one.
pub fn greater_is_gap_function<P: Placement, T>(of: &T)
    ensures { GreaterIsGapFunction P.net P.allowed }
{}

/// There is a latest gap function, or none at all.
pub fn latest_or_none<P: Placement, T>(of: &T)
    requires decided { IsDecided P.net P.allowed }
    ensures { LatestOrNone P.net P.allowed }
{}

/// What one pass from the last nodes to the first finds is the latest.
pub fn one_pass_is_latest<P: Placement, T>(of: &T)
    requires decided { IsOrderDecided P.net }
    ensures { OnePassIsLatest P.net P.allowed }
{}

/// The greatest number that fits a node is found over the changes below its bound alone.
pub fn greatest_gap_is_found<P: Placement, T>(of: &T)
    ensures search { SearchGoesDown P.net P.allowed }
    ensures greatest { FoundIsGreatest P.net P.allowed }
    ensures nothing { NothingFits P.net P.allowed }
    ensures own { OwnIsGreatest P.net P.allowed }
{}

/// Each placed schedule induces a gap function.
pub fn placed_induces_gaps<P: Placement, T>(of: &T)
    ensures { PlacedInducesGaps P.net P.allowed }
{}

/// Each gap function has a schedule.
pub fn gaps_have_schedule<P: Placement, T>(of: &T)
    requires decided { IsOrderDecided P.net }
    ensures { GapsHaveSchedule P.net P.allowed }
{}

/// The schedule of a gap function has the primitives in order and each node in its gap.
pub fn schedule_is_placed<P: Placement, T>(of: &T)
    ensures { ScheduleIsPlaced P.net P.allowed }
{}

/// There is one latest gap function on the nodes, and one latest schedule.
pub fn latest_schedule_is_the_only_one<P: Placement, T>(of: &T)
    ensures gaps { LatestIsTheOnlyOne P.net P.allowed }
    ensures schedule { ScheduleIsTheOnlyOne P.net P.allowed }
{}

/// Some schedule is placed exactly where there is a latest one.
pub fn placed_exactly_where_latest<P: Placement, T>(of: &T)
    requires decided { IsDecided P.net P.allowed }
    ensures { PlacedExactlyWhereLatest P.net P.allowed }
{}
