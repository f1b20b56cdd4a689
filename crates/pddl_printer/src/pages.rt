ghost use Rattle.std.specs.Prelude.{IfSome};
ghost use Rattle.plan_texts.specs.PrintedTexts.{domain_text, problem_text};
ghost use Rattle.pddl_printer.specs.InForm.{value_in};
ghost use Rattle.pddl_printer.specs.LowerFacts.{with_lower};
ghost use Rattle.pddl_printer.specs.Measured.{IsMeasured, range_of};
ghost use Rattle.pddl_printer.specs.Pages.{domain_start};
ghost use Rattle.text_forms.specs.sheets.Sheets.{Wrote};

use crate::facts::put_facts;
use crate::items::put_items;
use crate::lower::{Lower, put_lower};
use crate::schemas::{put_action, put_condition};
use crate::words::name_word;
use crate::written::Written;
use plan_model::{Pddl, Scope};
use text_forms::sheets::Sheet;

/// Puts the domain, each section on a line of its own.
pub(crate) fn put_domain(p: &Pddl, sheet: &mut Sheet<'_>)
    ensures { Wrote (domain_text p.now) sheet.old sheet.new }
{
    put_domain_start(p, sheet);
    let actions = p.actions.as_slice();
    for action in actions {
        put_action(p, None, action, sheet);
    }
    sheet.put(b")\n");
}

/// Puts the line with the domain's name, and the sections before the actions.
pub fn put_domain_start(p: &Pddl, sheet: &mut Sheet<'_>)
    ensures put { Wrote (domain_start p.now) sheet.old sheet.new }
{
    sheet.put(b"(define (domain ");
    sheet.put(name_word(p, p.domain));
    sheet.put(b")\n");
    sheet.put(b" (:requirements :adl)\n");
    sheet.put(b" (:types");
    put_items(p, p.types.parents.as_slice(), sheet);
    sheet.put(b")\n");
    sheet.put(b" (:constants");
    put_items(p, p.objects.as_slice(), sheet);
    sheet.put(b")\n");
    sheet.put(b" (:predicates");
    put_items(p, p.predicates.as_slice(), sheet);
    sheet.put(b")\n");
}

/// Puts the problem, each section on a line of its own, with the facts of lower objects behind its own, if there are any, and with the
/// quantifiers over the range in the goal as they are or written out.
pub fn put_problem(p: &Pddl, lower: Option<Lower>, written: Option<Written>, sheet: &mut Sheet<'_>)
    requires measured { IfSome written (IsMeasured p.now) }
    ensures put { Wrote (problem_text (value_in (range_of written) (with_lower lower p.now)))
        sheet.old sheet.new }
{
    sheet.put(b"(define (problem ");
    sheet.put(name_word(p, p.problem));
    sheet.put(b")\n");
    sheet.put(b" (:domain ");
    sheet.put(name_word(p, p.domain));
    sheet.put(b")\n");
    sheet.put(b" (:objects)\n");
    sheet.put(b" (:init");
    put_facts(p, &p.init, sheet);
    put_lower(p, lower, sheet);
    sheet.put(b")\n");
    sheet.put(b" (:goal");
    put_condition(p, &Scope::Empty, written, 0, &p.goal, sheet);
    sheet.put(b")\n");
    sheet.put(b")\n");
}
