//! Which methods are totally ordered, as the contracts of functions that do nothing.

ghost use Rattle.plan_texts.specs.FirstSeen.{IsHddlOf};
ghost use Rattle.plan_texts.specs.SoundValue.{IsSoundHddl};
ghost use Rattle.plan_model.specs.plan_meaning.Compilation.{IsCompiled};
ghost use Rattle.stack_proof.specs.OrderedAlike.{AreOrderedAlike, IsOrderedOrHasOneFirst};

use plan_model::{Checks, Compiled, Hddl};

/// Of two values of the same source texts, of which one is sound, the same methods are totally ordered, with the same words.
pub fn values_are_ordered_alike(
    domain: &[u8],
    problem: &[u8],
    one: &Hddl,
    one_compiled: &Compiled,
    other: &Hddl,
    other_compiled: &Compiled,
    checks: &Checks,
)
    requires one_spelled { IsHddlOf domain.now problem.now one.now }
    requires other_spelled { IsHddlOf domain.now problem.now other.now }
    requires sound { IsSoundHddl other.now }
    requires one_compiled { IsCompiled one.now checks.now one_compiled.now }
    requires other_compiled { IsCompiled other.now checks.now other_compiled.now }
    ensures { AreOrderedAlike one_compiled.now other_compiled.now }
{}

/// All methods are totally ordered, or one is the first that is not.
pub fn ordered_or_one_first(compiled: &Compiled)
    ensures { IsOrderedOrHasOneFirst compiled.now }
{}
