//! The laws of printed words, each the contract of a function that does nothing.

ghost use Rattle.plan_texts.specs.PrintableValue.{IsPrintable};
ghost use Rattle.slot_encoding.specs.WordsDiffer.{PrintedWordsDiffer};
ghost use Rattle.plan_texts.specs.SoundValue.{IsSoundHddl};
ghost use Rattle.plan_model.specs.plan_meaning.Compilation.{IsCompiled};
ghost use Rattle.slot_encoding.specs.EncodedValue.{IsEncoded};
ghost use Rattle.slot_encoding.specs.EncodedWords.{HasEncodedWords};
ghost use Rattle.slot_encoding.specs.FirstFree.{IsEncodedBy, HasWordsBy};
ghost use Rattle.slot_encoding.specs.Numberable.{IsNumberable};

use plan_model::{Checks, Compiled, Hddl, Pddl, Slots, Style};

/// No two types, objects, predicates or actions of a printable value have the same word, and no two parameters of one
/// action or variables of one quantifier; no variable that is used is hidden by a later one.
pub fn printed_words_differ(value: &Pddl)
    requires printable { IsPrintable value.now }
    ensures { PrintedWordsDiffer value.now }
{}

/// The encoded value of a sound problem, over a table that has all its words, can be printed and read again.
pub fn encoded_is_printable(
    problem: &Hddl,
    checks: &Checks,
    compiled: &Compiled,
    slots: u32,
    style: &Style,
    value: &Pddl,
)
    requires sound { IsSoundHddl problem.now }
    requires compiled { IsCompiled problem.now checks.now compiled.now }
    requires encoded { IsEncoded compiled.now slots style.now value.now }
    requires words { HasEncodedWords compiled.now slots value.now.names }
    requires numberable { IsNumberable compiled.now slots value.now.names }
    ensures { IsPrintable value.now }
{}

/// The same by which free slots a method takes.
pub fn encoded_is_printable_by(
    problem: &Hddl,
    checks: &Checks,
    compiled: &Compiled,
    slots: u32,
    rule: &Slots,
    style: &Style,
    value: &Pddl,
)
    requires sound { IsSoundHddl problem.now }
    requires compiled { IsCompiled problem.now checks.now compiled.now }
    requires encoded { IsEncodedBy rule.now compiled.now slots style.now value.now }
    requires words { HasWordsBy rule.now compiled.now slots value.now.names }
    requires numberable { IsNumberable compiled.now slots value.now.names }
    ensures { IsPrintable value.now }
{}
