ghost use Rattle.std.specs.Prelude.{◌≡◌};
ghost use Rattle.text_forms.specs.sheets.Sheets.{Wrote};
ghost use Rattle.hddl_texts.specs.PrintedHddl.{hddl_domain_text, hddl_problem_text};
ghost use Rattle.hddl_texts.specs.Texts as spec;
ghost use Rattle.hddl_texts.specs.Texts.{hddl_of, objects_text};

use crate::lines::{put_lines, put_top};
use crate::problem::PrintedProblem;
use pddl_printer::{Batch, Item, name_word, put_facts, put_formula, put_items};
use plan_model::{Object, Pddl, Scope};
use text_forms::sheets::Sheet;

/// Puts the domain, each section on a line of its own.
pub fn put_hddl_domain(p: &PrintedProblem, sheet: &mut Sheet<'_>)
    ensures put { Wrote (hddl_domain_text (hddl_of p.now)) sheet.old sheet.new }
{
    let pddl = &p.pddl;
    sheet.put(b"(define (domain ");
    sheet.put(name_word(pddl, pddl.domain));
    sheet.put(b")\n");
    sheet.put(b" (:requirements :adl :typing :hierarchy :method-preconditions)\n");
    sheet.put(b" (:types");
    put_items(pddl, pddl.types.parents.as_slice(), sheet);
    sheet.put(b")\n");
    sheet.put(b" (:constants");
    put_objects(pddl, true, sheet);
    sheet.put(b")\n");
    sheet.put(b" (:predicates");
    put_items(pddl, pddl.predicates.as_slice(), sheet);
    sheet.put(b")\n");
    put_lines(p, p.tasks.as_slice(), sheet);
    put_lines(p, p.methods.as_slice(), sheet);
    put_lines(p, pddl.actions.as_slice(), sheet);
    sheet.put(b")\n");
}

/// Puts the problem, each section on a line of its own.
pub fn put_hddl_problem(p: &PrintedProblem, sheet: &mut Sheet<'_>)
    ensures put { Wrote (hddl_problem_text (hddl_of p.now)) sheet.old sheet.new }
{
    let pddl = &p.pddl;
    sheet.put(b"(define (problem ");
    sheet.put(name_word(pddl, pddl.problem));
    sheet.put(b")\n");
    sheet.put(b" (:domain ");
    sheet.put(name_word(pddl, pddl.domain));
    sheet.put(b")\n");
    sheet.put(b" (:objects");
    put_objects(pddl, false, sheet);
    sheet.put(b")\n");
    sheet.put(b" (:htn");
    put_top(p, &p.top, sheet);
    sheet.put(b")\n");
    sheet.put(b" (:init");
    put_facts(pddl, &pddl.init, sheet);
    sheet.put(b")\n");
    sheet.put(b" (:goal");
    put_formula(pddl, &Scope::Empty, &pddl.goal, sheet);
    sheet.put(b")\n");
    sheet.put(b")\n");
}

/// Puts the constants, or else the other objects, each behind a space.
fn put_objects(p: &Pddl, constants: bool, sheet: &mut Sheet<'_>)
    ensures { Wrote (objects_text p.now constants p.now.objects) sheet.old sheet.new }
{
    let mut batch = Batch::new();
    for object in p.objects.as_slice() {
        if is_listed(*object, constants) {
            object.add(p, &mut batch, sheet);
        }
    }
    batch.put(sheet);
}

/// Whether it is one of the constants, or else one of the other objects.
fn is_listed(object: Object, constants: bool) -> bool
    ensures { result ≡ spec.is_listed constants object }
{
    if constants {
        object.constant
    } else {
        !object.constant
    }
}
