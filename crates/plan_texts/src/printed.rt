// What is printed spells the value.
ghost use Rattle.plan_texts.specs.SpellsPddl.{SpellsPddl};
ghost use Rattle.plan_texts.specs.PrintedTexts.{domain_text, problem_text};
ghost use Rattle.plan_texts.specs.PrintableValue.{IsPrintable};
ghost use Rattle.plan_texts.specs.Alike.{AreAlikePddl};

use plan_model::Pddl;

/// The two printed texts of a printable value spell it.
pub fn printed_spells(value: &Pddl)
    requires { IsPrintable value.now }
    ensures { SpellsPddl (domain_text value.now) (problem_text value.now) value.now }
{}

/// Each value that the two printed texts of a printable value spell is alike to it.
pub fn read_back_alike(value: &Pddl, read: &Pddl)
    requires printable { IsPrintable value.now }
    requires spelled { SpellsPddl (domain_text value.now) (problem_text value.now) read.now }
    ensures { AreAlikePddl value.now read.now }
{}
