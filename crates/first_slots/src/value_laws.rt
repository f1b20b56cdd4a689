//! The headline by the rule for slots, as the contracts of functions that do nothing.
//!
//! `read` is a value of the two source texts, `compiled` is compiled of it, and `value` is its printed problem; its networks have no
//! cycle. `rule` is which free slots a method takes, and `slots` the number of slots.

ghost use Rattle.plan_texts.specs.FirstSeen.{IsHddlOf};
ghost use Rattle.plan_model.specs.plan_meaning.Compilation.{IsCompiled};
ghost use Rattle.plan_model.specs.plan_meaning.Laws.{AreOrdered};
ghost use Rattle.plan_proof.specs.Headline.{PrintedHeadlineBy, PrintedHeadlineAtBoundBy, PrintedOnePlanForEach};
ghost use Rattle.slot_encoding.specs.Printed.{IsPrintedBy, IsPrintedFirst};
ghost use Rattle.first_slots.specs.LowestSpelling.{IsLowestSpelling, SpellingBy};

use plan_model::{Checks, Compiled, Hddl, Pddl, Slots, Style};

/// The printed problem of one value of the source texts is that of each other, whose networks have no cycle either.
pub fn printed_for_each_by(
    domain: &[u8],
    problem: &[u8],
    read: &Hddl,
    checks: &Checks,
    compiled: &Compiled,
    rule: &Slots,
    slots: u32,
    style: &Style,
    value: &Pddl,
    other: &Hddl,
    other_compiled: &Compiled,
)
    requires spelled { IsHddlOf domain.now problem.now read.now }
    requires printed { IsPrintedBy rule.now read.now checks.now compiled.now slots style.now value.now }
    requires ordered { AreOrdered read.now }
    requires other_spelled { IsHddlOf domain.now problem.now other.now }
    requires other_compiled { IsCompiled other.now checks.now other_compiled.now }
    ensures printed { IsPrintedBy rule.now other.now checks.now other_compiled.now slots style.now value.now }
    ensures ordered { AreOrdered other.now }
{}

/// For every value of the two source texts: the two printed texts are faithful to what is compiled of it.
pub fn headline_by(
    domain: &[u8],
    problem: &[u8],
    read: &Hddl,
    checks: &Checks,
    compiled: &Compiled,
    rule: &Slots,
    slots: u32,
    style: &Style,
    value: &Pddl,
)
    requires spelled { IsHddlOf domain.now problem.now read.now }
    requires printed { IsPrintedBy rule.now read.now checks.now compiled.now slots style.now value.now }
    requires ordered { AreOrdered read.now }
    ensures { PrintedHeadlineBy (SpellingBy rule.now) domain.now problem.now checks.now slots value.now }
{}

/// And where there are as many slots as the bound, or more, they lose no schedule of any solution.
pub fn headline_at_bound_by(
    domain: &[u8],
    problem: &[u8],
    read: &Hddl,
    checks: &Checks,
    compiled: &Compiled,
    rule: &Slots,
    slots: u32,
    style: &Style,
    value: &Pddl,
)
    requires spelled { IsHddlOf domain.now problem.now read.now }
    requires printed { IsPrintedBy rule.now read.now checks.now compiled.now slots style.now value.now }
    requires ordered { AreOrdered read.now }
    ensures { PrintedHeadlineAtBoundBy (SpellingBy rule.now) domain.now problem.now checks.now slots value.now }
{}

/// With the lowest free slots each schedule of a solution that never has more tasks pending than there are slots has exactly one
/// plan.
pub fn each_schedule_has_one_plan(
    domain: &[u8],
    problem: &[u8],
    read: &Hddl,
    checks: &Checks,
    compiled: &Compiled,
    slots: u32,
    style: &Style,
    value: &Pddl,
)
    requires spelled { IsHddlOf domain.now problem.now read.now }
    requires printed { IsPrintedFirst read.now checks.now compiled.now slots style.now value.now }
    requires ordered { AreOrdered read.now }
    ensures { PrintedOnePlanForEach IsLowestSpelling domain.now problem.now checks.now slots value.now }
{}
