ghost use Rattle.std.specs.Prelude.{◌≡◌, ◌++◌, OnOk, OnErr};
ghost use Rattle.plan_texts.specs.PrintedTexts.{domain_text, problem_text};
ghost use Rattle.plan_texts.specs.PrintableValue.{IsPrintable};
ghost use Rattle.plan_texts.specs.SpellsPddl.{SpellsPddl};
ghost use Rattle.text_forms.specs.sheets.Sheets.{AppendsPrefix};

use crate::pages::{put_domain, put_problem};
use htn_base::{Memory, Text};
use plan_model::Pddl;
use text_forms::sheets::Sheet;

/// Appends the domain text of the value, a line for each section.
pub fn print_domain(p: &Pddl, into: &mut Text) -> Result<(), Memory>
    ensures printed { OnOk result (into.new ≡ into.old ++ domain_text p.now) }
    ensures prefix { OnErr result (AppendsPrefix (domain_text p.now) into.old into.new) }
    ensures spelled { IsPrintable p.now →
        SpellsPddl (domain_text p.now) (problem_text p.now) p.now }
{
    let mut sheet = Sheet::new(into, u64::MAX);
    put_domain(p, &mut sheet);
    sheet.complete()
}

/// Appends the problem text of the value, a line for each section.
pub fn print_problem(p: &Pddl, into: &mut Text) -> Result<(), Memory>
    ensures printed { OnOk result (into.new ≡ into.old ++ problem_text p.now) }
    ensures prefix { OnErr result (AppendsPrefix (problem_text p.now) into.old into.new) }
    ensures spelled { IsPrintable p.now →
        SpellsPddl (domain_text p.now) (problem_text p.now) p.now }
{
    let mut sheet = Sheet::new(into, u64::MAX);
    put_problem(p, None, None, &mut sheet);
    sheet.complete()
}
