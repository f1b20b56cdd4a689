//! That what is printed is fixed, by the rule for slots: the contracts of functions that do nothing.
//!
//! `rule` is which free slots a method takes, and `slots` the number of slots, whatever it is; style and mode of checks are those of
//! the words of a run.

ghost use Rattle.plan_texts.specs.FirstSeen.{IsHddlOf};
ghost use Rattle.plan_texts.specs.SoundValue.{IsSoundHddl};
ghost use Rattle.plan_model.specs.plan_meaning.Laws.{AreOrdered};
ghost use Rattle.plan_proof.specs.OneText.{PrintedAreTextsBy, HaveTextsBy, HaveOnePairOfTextsBy};
ghost use Rattle.slot_encoding.specs.FirstFree.{HasWordsBy};
ghost use Rattle.slot_encoding.specs.Printed.{IsPrintedBy};

use plan_model::{Checks, Compiled, Hddl, Pddl, Slots, Style};

/// Two source texts have one pair of printed texts at most, in each mode of checks, by each rule for slots, at each number of
/// slots and in each style, whichever values they are read as, and whichever tables the printed values have.
pub fn one_pair_of_texts_by(
    domain: &[u8],
    problem: &[u8],
    checks: &Checks,
    rule: &Slots,
    slots: u32,
    style: &Style,
)
    ensures { HaveOnePairOfTextsBy rule.now domain.now problem.now checks.now slots style.now }
{}

/// The two texts of a printed value, over a table that has all its words, are such a pair.
pub fn printed_texts_are_the_pair_by(
    domain: &[u8],
    problem: &[u8],
    read: &Hddl,
    checks: &Checks,
    compiled: &Compiled,
    rule: &Slots,
    slots: u32,
    style: &Style,
    value: &Pddl,
)
    requires spelled { IsHddlOf domain.now problem.now read.now }
    requires printed { IsPrintedBy rule.now read.now checks.now compiled.now slots style.now value.now }
    requires words { HasWordsBy rule.now compiled.now slots value.now.names }
    ensures { PrintedAreTextsBy rule.now domain.now problem.now checks.now slots style.now value.now }
{}

/// And they have one, if they spell a sound value whose networks have no cycle.
pub fn some_pair_of_texts_by(
    domain: &[u8],
    problem: &[u8],
    read: &Hddl,
    checks: &Checks,
    rule: &Slots,
    slots: u32,
    style: &Style,
)
    requires spelled { IsHddlOf domain.now problem.now read.now }
    requires sound { IsSoundHddl read.now }
    requires ordered { AreOrdered read.now }
    ensures { HaveTextsBy rule.now domain.now problem.now checks.now slots style.now }
{}
