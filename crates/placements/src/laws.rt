//! Laws of plans that are placed, each the contract of a function that does nothing.

ghost use Rattle.placements.specs.Laws.{PlacedAreSolutions, RefusedAreShownByNone};

use plan_model::Compiled;

/// A placed plan's tree and order are a solution that shows the plan.
pub fn placed_are_solutions(c: &Compiled)
    ensures { PlacedAreSolutions c.now }
{}

/// No solution shows a plan whose lines no ground methods fit, whose actions can't be executed, whose goal is false, or which has no place.
pub fn refused_are_shown_by_none(c: &Compiled)
    ensures { RefusedAreShownByNone c.now }
{}
