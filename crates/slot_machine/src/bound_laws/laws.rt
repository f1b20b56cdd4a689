//! The laws of bounds, each the contract of a function that does nothing.

ghost use Rattle.plan_model.specs.plan_meaning.Compilation.{IsCompiled};
ghost use Rattle.slot_machine.specs.bound_laws.Laws.{TailRecursiveOrNamedCycle, TailRecursiveHasNoNamedCycle, NamedCycleIsTheOnlyOne, TailRecursiveHasOneBound, BoundedIsTailRecursive, EveryFrontIsWithinTheBound, RankedExactly};

use plan_model::{Checks, Compiled, Hddl};

/// A problem is tail-recursive or has a named bad cycle, exactly one, and not both.
pub fn tail_recursive_or_bad_cycle(compiled: &Compiled)
    ensures either { TailRecursiveOrNamedCycle compiled.now }
    ensures not_both { TailRecursiveHasNoNamedCycle compiled.now }
    ensures one { NamedCycleIsTheOnlyOne compiled.now }
{}

/// A compiled problem that is tail-recursive has exactly one bound, and one that isn't has none.
pub fn tail_recursive_has_one_bound(problem: &Hddl, checks: &Checks, compiled: &Compiled)
    requires compiled { IsCompiled problem.now checks.now compiled.now }
    ensures one { TailRecursiveHasOneBound compiled.now }
    ensures no_other { BoundedIsTailRecursive compiled.now }
{}

/// No schedule of any front, executable or not, has more pending at any time than the bound.
pub fn every_front_is_within_the_bound(problem: &Hddl, checks: &Checks, compiled: &Compiled)
    requires compiled { IsCompiled problem.now checks.now compiled.now }
    ensures { EveryFrontIsWithinTheBound compiled.now }
{}

/// A lawful ranking exists exactly where there is no bad cycle.
pub fn ranked_exactly(compiled: &Compiled)
    ensures { RankedExactly compiled.now }
{}
