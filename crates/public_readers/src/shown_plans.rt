//! The plan that a finished tree and its order show, worked out by hand.

ghost use Rattle.std.specs.Prelude.{IfSome};
ghost use Rattle.plan_model.specs.plan_meaning.Laws.{AreOrdered};
ghost use Rattle.plan_texts.specs.SoundProblem.{IsSoundProblem};

use bound_calc::method_precs::compile;
use hplan_text::{print, show};
use htn_base::{List, Memory, Text};
use plan_model::{Checks, Compiled, Hddl};
use std::alloc::Global;
use text_forms::sheets::Sheet;
use text_values::hddl_of;
use tree_core::{Growth, Label, grow};

const DOMAIN: &[u8] = b"(define (domain d) (:types k) (:predicates (p ?x - k)) \
(:task t :parameters (?x - k)) (:method m :parameters (?x - k) :task (t ?x) :precondition (p ?x) :ordered-subtasks (and (a ?x) (t ?x))) \
(:method n :parameters (?x - k) :task (t ?x) :subtasks ()) (:action a :parameters (?x - k)))";

const PROBLEM: &[u8] =
    b"(define (problem q) (:domain d) (:objects o - k) (:htn :subtasks (t o)) (:init (p o)))";

fn problem(alloc: Global) -> Option<Hddl>
    ensures sound { IfSome result IsSoundProblem }
    ensures ordered { IfSome result AreOrdered }
{
    match hddl_of(alloc, DOMAIN, PROBLEM) {
        Ok(value) => Some(value),
        Err(_) => None,
    }
}

fn compiled(alloc: Global) -> Option<Compiled> {
    let problem = problem(alloc)?;
    match compile(alloc, problem, &Checks::Leaf) {
        Ok(compiled) => Some(compiled),
        Err(_) => None,
    }
}

fn object(alloc: Global) -> Result<List<u32>, Memory> {
    let mut args = List::new(alloc);
    args.push(0)?;
    Ok(args)
}

fn task(alloc: Global, method: u32) -> Result<Label, Memory> {
    let args = object(alloc)?;
    Ok(Label::Abstract {
        task: 0,
        args,
        method,
        method_args: object(alloc)?,
    })
}

// The top task, and `t` by `m`: its check, its action, and `t` by `n`.
fn growths(alloc: Global) -> Result<List<Growth>, Memory> {
    let mut growths = List::new(alloc);
    let top = Label::Abstract {
        task: 1,
        args: List::new(alloc),
        method: 0,
        method_args: List::new(alloc),
    };
    put(&mut growths, None, 0, Ok(top))?;
    put(&mut growths, Some(0), 0, task(alloc, 1))?;
    put(&mut growths, Some(1), 0, check(alloc))?;
    put(&mut growths, Some(1), 1, action(alloc))?;
    put(&mut growths, Some(1), 2, task(alloc, 2))?;
    Ok(growths)
}

fn check(alloc: Global) -> Result<Label, Memory> {
    let args = object(alloc)?;
    Ok(Label::Check { method: 1, args })
}

fn action(alloc: Global) -> Result<Label, Memory> {
    let args = object(alloc)?;
    Ok(Label::Primitive { action: 0, args })
}

fn put(
    growths: &mut List<Growth>,
    parent: Option<u32>,
    child: u32,
    label: Result<Label, Memory>,
) -> Result<(), Memory> {
    let label = label?;
    growths.push(Growth {
        parent,
        child,
        label,
    })
}

fn shown(alloc: Global) -> Option<Text> {
    let compiled = compiled(alloc)?;
    let Ok(growths) = growths(alloc) else {
        return None;
    };
    if growths.len() > 1_000_000 {
        return None;
    }
    let Ok(run) = grow(alloc, growths) else {
        return None;
    };
    let Ok(plan) = show(alloc, &compiled, &run) else {
        return None;
    };
    let mut text = Text::new(alloc);
    let mut sheet = Sheet::new(&mut text, u64::MAX);
    print(&plan, &mut sheet);
    let whole = sheet.complete().is_ok();
    if whole { Some(text) } else { None }
}

#[test]
fn the_plan_of_a_tree(rt: HostRuntime) {
    let want = b"==>\n0 a o\nroot 1\n1 t o -> m 0 2\n2 t o -> n\n<==\n";
    match shown(rt.alloc()) {
        Some(text) => assert!(rt; text.as_slice() == want.as_slice()),
        None => panic!(rt; "nothing is shown"),
    }
}
