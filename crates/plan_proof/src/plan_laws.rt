//! The laws of printed plans, each the contract of a function that does nothing.
//!
//! `value` is the printed problem of `compiled`, which is compiled of the sound problem `problem`; the networks have no cycle.
//! `slots` is the number of slots; a printable problem has one at least.

ghost use Rattle.plan_texts.specs.PrintedTexts.{domain_text, problem_text};
ghost use Rattle.plan_model.specs.plan_meaning.Laws.{AreOrdered};
ghost use Rattle.plan_proof.specs.Headline.{IsFaithful};
ghost use Rattle.slot_encoding.specs.Printed.{IsPrinted};
ghost use Rattle.plan_proof.specs.Faithful.{ExecutablesSpellFronts, PlansSpellSolutions, EachSpellsOne, SpellingsAreWithin, FrontsWithinAreSpelled, IsFaithfulValue, PrintedLosesNothing};

use plan_model::{Checks, Compiled, Hddl, Pddl, Style};

/// The executable lists of the printed problem are those that spell an executable front.
pub fn executables_spell_fronts(
    problem: &Hddl,
    checks: &Checks,
    compiled: &Compiled,
    slots: u32,
    style: &Style,
    value: &Pddl,
)
    requires ordered { AreOrdered problem.now }
    requires printed { IsPrinted problem.now checks.now compiled.now slots style.now value.now }
    ensures { ExecutablesSpellFronts compiled.now slots value.now }
{}

/// The plans of the printed problem are the lists that spell a schedule of a solution tree.
pub fn plans_spell_solutions(
    problem: &Hddl,
    checks: &Checks,
    compiled: &Compiled,
    slots: u32,
    style: &Style,
    value: &Pddl,
)
    requires ordered { AreOrdered problem.now }
    requires printed { IsPrinted problem.now checks.now compiled.now slots style.now value.now }
    ensures { PlansSpellSolutions compiled.now slots value.now }
{}

/// A list spells one front, with never more pending than there are slots, and each front of which that is true is spelled.
pub fn spellings_fit_slots(
    problem: &Hddl,
    checks: &Checks,
    compiled: &Compiled,
    slots: u32,
    style: &Style,
    value: &Pddl,
)
    requires ordered { AreOrdered problem.now }
    requires printed { IsPrinted problem.now checks.now compiled.now slots style.now value.now }
    ensures only_one { EachSpellsOne compiled.now slots }
    ensures within { SpellingsAreWithin compiled.now slots }
    ensures spelled { FrontsWithinAreSpelled compiled.now slots }
{}

/// All of this, of the printed problem as a value.
pub fn value_is_faithful(
    problem: &Hddl,
    checks: &Checks,
    compiled: &Compiled,
    slots: u32,
    style: &Style,
    value: &Pddl,
)
    requires ordered { AreOrdered problem.now }
    requires printed { IsPrinted problem.now checks.now compiled.now slots style.now value.now }
    ensures { IsFaithfulValue compiled.now slots value.now }
{}

/// And of its two printed texts.
pub fn texts_are_faithful(
    problem: &Hddl,
    checks: &Checks,
    compiled: &Compiled,
    slots: u32,
    style: &Style,
    value: &Pddl,
)
    requires ordered { AreOrdered problem.now }
    requires printed { IsPrinted problem.now checks.now compiled.now slots style.now value.now }
    ensures { IsFaithful compiled.now slots (domain_text value.now) (problem_text value.now) }
{}

/// Where there are as many slots as the bound, or more, the two printed texts lose no schedule of any solution.
pub fn texts_lose_nothing(
    problem: &Hddl,
    checks: &Checks,
    compiled: &Compiled,
    slots: u32,
    style: &Style,
    value: &Pddl,
)
    requires ordered { AreOrdered problem.now }
    requires printed { IsPrinted problem.now checks.now compiled.now slots style.now value.now }
    ensures { PrintedLosesNothing compiled.now slots value.now }
{}
