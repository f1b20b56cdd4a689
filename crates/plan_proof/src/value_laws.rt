//! The headline, as the contracts of functions that do nothing.
//!
//! `read` is a value of the two source texts, `compiled` is compiled of it, and `value` is its printed problem; its networks have no cycle.
//! `slots` is the number of slots.

ghost use Rattle.plan_texts.specs.FirstSeen.{IsHddlOf};
ghost use Rattle.plan_texts.specs.SoundValue.{IsSoundHddl};
ghost use Rattle.plan_model.specs.plan_meaning.Compilation.{IsCompiled};
ghost use Rattle.plan_model.specs.plan_meaning.Laws.{AreOrdered};
ghost use Rattle.plan_proof.specs.Headline.{PrintedHeadline, PrintedHeadlineAtBound};
ghost use Rattle.slot_encoding.specs.Printed.{IsPrinted};
ghost use Rattle.plan_proof.specs.Same.{AreSameButNames};

use plan_model::{Checks, Compiled, Hddl, Pddl, Style};

/// Two values of the same source texts, of which one is sound, are the same but for names.
pub fn values_are_same_but_names(domain: &[u8], problem: &[u8], one: &Hddl, other: &Hddl)
    requires first { IsHddlOf domain.now problem.now one.now }
    requires second { IsHddlOf domain.now problem.now other.now }
    requires sound { IsSoundHddl other.now }
    ensures { AreSameButNames one.now other.now }
{}

/// The printed problem of one value of the source texts is that of each other, whose networks have no cycle either.
pub fn printed_for_each(
    domain: &[u8],
    problem: &[u8],
    read: &Hddl,
    checks: &Checks,
    compiled: &Compiled,
    slots: u32,
    style: &Style,
    value: &Pddl,
    other: &Hddl,
    other_compiled: &Compiled,
)
    requires spelled { IsHddlOf domain.now problem.now read.now }
    requires printed { IsPrinted read.now checks.now compiled.now slots style.now value.now }
    requires ordered { AreOrdered read.now }
    requires other_spelled { IsHddlOf domain.now problem.now other.now }
    requires other_compiled { IsCompiled other.now checks.now other_compiled.now }
    ensures printed { IsPrinted other.now checks.now other_compiled.now slots style.now value.now }
    ensures ordered { AreOrdered other.now }
{}

/// For every value of the two source texts: the two printed texts are faithful to what is compiled of it.
pub fn headline(
    domain: &[u8],
    problem: &[u8],
    read: &Hddl,
    checks: &Checks,
    compiled: &Compiled,
    slots: u32,
    style: &Style,
    value: &Pddl,
)
    requires spelled { IsHddlOf domain.now problem.now read.now }
    requires printed { IsPrinted read.now checks.now compiled.now slots style.now value.now }
    requires ordered { AreOrdered read.now }
    ensures { PrintedHeadline domain.now problem.now checks.now slots value.now }
{}

/// And where there are as many slots as the bound, or more, they lose no schedule of any solution.
pub fn headline_at_bound(
    domain: &[u8],
    problem: &[u8],
    read: &Hddl,
    checks: &Checks,
    compiled: &Compiled,
    slots: u32,
    style: &Style,
    value: &Pddl,
)
    requires spelled { IsHddlOf domain.now problem.now read.now }
    requires printed { IsPrinted read.now checks.now compiled.now slots style.now value.now }
    requires ordered { AreOrdered read.now }
    ensures { PrintedHeadlineAtBound domain.now problem.now checks.now slots value.now }
{}
