//! Laws of trees and schedules that show a plan, each the contract of a function that does nothing.

ghost use Rattle.schedules.specs.latest.Laws.{IsDecided};
ghost use Rattle.schedules.specs.latest.Shown.{AreTelling};
ghost use Rattle.schedules.specs.latest.ShownLaws.{ShownExactlyWhereInOrder, StepsArePlan, TreesAreAlike, ShownExactlyWhereLatest, LatestIsShown};

use crate::latest::telling::Telling;

/// A plan is shown exactly where its ids are the nodes of the tree and the actions are scheduled in the order of their lines.
pub fn shown_exactly_where_in_order<P: Telling, T>(of: &T)
    ensures shown { ShownExactlyWhereInOrder P.net P.words P.top }
    ensures plan { StepsArePlan P.net P.words P.top }
{}

/// All trees of a plan have one shape, in all the same is said of each node, and each line has the same node.
pub fn trees_are_alike<P: Telling, T>(of: &T)
    requires told { AreTelling P.net P.words P.top }
    ensures { TreesAreAlike P.net P.words P.top }
{}

/// Some schedule of a plan's tree shows it, with each node in an allowed gap, exactly where there is a latest one, which does so.
pub fn shown_exactly_where_latest<P: Telling, T>(of: &T)
    requires told { AreTelling P.net P.words P.top }
    requires decided { IsDecided P.net P.allowed }
    ensures exactly { ShownExactlyWhereLatest P.net P.words P.top P.allowed }
    ensures latest { LatestIsShown P.net P.words P.top P.allowed }
{}
