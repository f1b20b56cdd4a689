// Plans go by the words of a value, so that two texts have the plans of each value that they spell.
ghost use Rattle.std.specs.Prelude.{◌↔◌, List};
ghost use Rattle.plan_texts.specs.SpellsPddl.{SpellsPddl};
ghost use Rattle.plan_texts.specs.Alike.{AreAlikePddl};
ghost use Rattle.plan_texts.specs.PrintedTexts.{domain_text, problem_text};
ghost use Rattle.plan_texts.specs.PrintableValue.{IsPrintable};
ghost use Rattle.plan_model.specs.plan_meaning.ClassicalPlan.{IsPlan};
ghost use Rattle.plan_model.specs.declared.steps.GroundAction.{GroundAction};
ghost use Rattle.plan_proof.specs.SoundWords.{HasSoundWords};
ghost use Rattle.plan_proof.specs.TextPlans.{HavePlansOf};
ghost use Rattle.plan_proof.specs.Headline.{HaveExecutablesOf};

use plan_model::Pddl;

/// Alike values have the same plans.
pub fn alike_plans(one: &Pddl, other: &Pddl)
    requires one_sound { HasSoundWords one.now }
    requires other_sound { HasSoundWords other.now }
    requires alike { AreAlikePddl one.now other.now }
    ensures { (steps : List GroundAction) → IsPlan one.now steps ↔ IsPlan other.now steps }
{}

/// A value that two texts spell has sound words.
pub fn spelled_sound(domain: &[u8], problem: &[u8], value: &Pddl)
    requires { SpellsPddl domain.now problem.now value.now }
    ensures { HasSoundWords value.now }
{}

/// Two texts have the plans of each value that they spell.
pub fn plans_of_texts(domain: &[u8], problem: &[u8], value: &Pddl)
    requires { SpellsPddl domain.now problem.now value.now }
    ensures { HavePlansOf domain.now problem.now value.now }
{}

/// The plans of the two printed texts of a printable value are its own.
pub fn printed_plans(value: &Pddl)
    requires { IsPrintable value.now }
    ensures { HavePlansOf (domain_text value.now) (problem_text value.now) value.now }
{}

/// The executable lists of the two printed texts of a printable value are its own.
pub fn printed_executables(value: &Pddl)
    requires { IsPrintable value.now }
    ensures { HaveExecutablesOf (domain_text value.now) (problem_text value.now) value.now }
{}
