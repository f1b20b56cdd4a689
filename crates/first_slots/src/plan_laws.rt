//! What the plans of a printed problem with first-free slots are, and those of its two texts: the contracts of functions that do nothing.
//!
//! `value` is printed for `compiled`, which is compiled of the sound problem `problem`; the networks have no cycle. `slots` is the
//! number of slots.

ghost use Rattle.plan_texts.specs.PrintedTexts.{domain_text, problem_text};
ghost use Rattle.plan_model.specs.plan_meaning.Compilation.{IsCompiled};
ghost use Rattle.plan_model.specs.plan_meaning.Laws.{AreOrdered};
ghost use Rattle.plan_proof.specs.Headline.{IsFaithfulBy, EachHasOneSpelling};
ghost use Rattle.plan_proof.specs.Faithful.{IsFaithfulValueBy, PrintedLosesNothingBy};
ghost use Rattle.slot_encoding.specs.Printed.{IsPrintedFirst};
ghost use Rattle.first_slots.specs.LowestSpelling.{IsLowestSpelling};

use plan_model::{Checks, Compiled, Hddl, Pddl, Style};

/// A schedule is spelled with the lowest free slots by one list at most.
pub fn each_schedule_has_one_spelling(
    problem: &Hddl,
    checks: &Checks,
    compiled: &Compiled,
    slots: u32,
)
    requires ordered { AreOrdered problem.now }
    requires compiled { IsCompiled problem.now checks.now compiled.now }
    ensures { EachHasOneSpelling IsLowestSpelling compiled.now slots }
{}

/// The plans of the printed problem, as a value, are the spellings of solutions with the lowest free slots, and its executable
/// lists those of executable fronts.
pub fn first_value_is_faithful(
    problem: &Hddl,
    checks: &Checks,
    compiled: &Compiled,
    slots: u32,
    style: &Style,
    value: &Pddl,
)
    requires ordered { AreOrdered problem.now }
    requires printed { IsPrintedFirst problem.now checks.now compiled.now slots style.now value.now }
    ensures { IsFaithfulValueBy IsLowestSpelling compiled.now slots value.now }
{}

/// And so are those of its two printed texts.
pub fn first_texts_are_faithful(
    problem: &Hddl,
    checks: &Checks,
    compiled: &Compiled,
    slots: u32,
    style: &Style,
    value: &Pddl,
)
    requires ordered { AreOrdered problem.now }
    requires printed { IsPrintedFirst problem.now checks.now compiled.now slots style.now value.now }
    ensures { IsFaithfulBy IsLowestSpelling compiled.now slots (domain_text value.now)
        (problem_text value.now) }
{}

/// Where there are as many slots as the bound, or more, the two printed texts lose no schedule of any solution.
pub fn first_texts_lose_nothing(
    problem: &Hddl,
    checks: &Checks,
    compiled: &Compiled,
    slots: u32,
    style: &Style,
    value: &Pddl,
)
    requires ordered { AreOrdered problem.now }
    requires printed { IsPrintedFirst problem.now checks.now compiled.now slots style.now value.now }
    ensures { PrintedLosesNothingBy IsLowestSpelling compiled.now slots value.now }
{}
