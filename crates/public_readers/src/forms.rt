//! Forms with the fault that the grammar gives them, and each call once with ample memory. Offsets are counted by hand.

use gd_reader::{
    Got, ListKind, RawEffect, RawFacts, RawFormula, RawParams, RawTerm, effect, formula, typed_list,
};
use htn_base::{Fault, Memory, Name, NameTable};
use std::alloc::Global;
use std::process::Abort;
use text_forms::sexpr_text::{ReadError, Sexprs, read};

// The code and the offset of the fault, if there is one.
fn told<T: Drop>(rt: &impl Abort, answer: Result<T, ReadError>) -> (u16, u32) {
    match answer {
        Ok(value) => {
            drop(value);
            (0, 0)
        }
        Err(ReadError::Bad(Fault { code, file, at })) => {
            assert!(rt; file == 1);
            (code, at)
        }
        Err(ReadError::Memory) => panic!(rt; "out of memory"),
    }
}

// What a text is read as; a list as what stands in it.
#[derive(Clone, Copy)]
enum Form {
    Formula,
    Effect,
    List(ListKind),
}

// The code and the offset of the fault of the form that the text is.
fn fault_of(rt: &impl Abort, alloc: Global, source: &[u8], form: Form) -> (u16, u32) {
    assert!(rt; source.len() <= 16_777_216);
    let s = read(alloc, source, 1).ok().expect(rt, "a text");
    let mut names = NameTable::new(alloc);
    let fault = fault_of_tokens(rt, alloc, &s, form, &mut names);
    drop(names);
    drop(s);
    fault
}

#[tactic(auto, using(gd_reader::proofs::Items::whole_inside))]
fn fault_of_tokens(
    rt: &impl Abort,
    alloc: Global,
    s: &Sexprs<'_>,
    form: Form,
    names: &mut NameTable,
) -> (u16, u32) {
    assert!(rt; s.len() > 0);
    match form {
        Form::Formula => told(rt, formula(alloc, s, 0, 1, names)),
        Form::Effect => told(rt, effect(alloc, s, 0, 1, names)),
        Form::List(kind) => {
            assert!(rt; s.close_of(0).is_some());
            told(rt, typed_list(alloc, s, 1, 1, kind, names))
        }
    }
}

const FORMS: &[(Form, &[u8], u16, u32)] = &[
    (Form::Formula, b"p", 8, 0),
    (Form::Formula, b"((p))", 8, 1),
    (Form::Formula, b"(p ?)", 8, 3),
    (Form::Formula, b"(p (q))", 8, 3),
    (Form::Formula, b"(= a)", 8, 4),
    (Form::Formula, b"(imply (p))", 8, 10),
    (Form::Formula, b"(not (when))", 8, 6),
    (Form::Formula, b"(forall (?x ?X) (p))", 18, 12),
    (Form::Formula, b"(exists (?and) (p))", 9, 9),
    (Form::Formula, b"(exists (and) (p))", 8, 9),
    (Form::Formula, b"(exists (?x - (either)) (p))", 8, 21),
    (Form::Effect, b"(or (p))", 8, 1),
    (Form::Effect, b"(not (not (p)))", 8, 6),
    (Form::Effect, b"(not ((p)))", 8, 6),
    (Form::Effect, b"(not (increase))", 8, 6),
    (Form::Effect, b"(when (p))", 8, 9),
    (Form::Effect, b"(forall (?x ?y ?x) (p))", 18, 15),
    (Form::List(ListKind::Parameters), b"(?x - t ?X)", 18, 8),
    (Form::List(ListKind::Parameters), b"(- t)", 8, 1),
    (Form::List(ListKind::Objects), b"(- t)", 9, 1),
    (Form::List(ListKind::Objects), b"(a - or)", 8, 5),
    (Form::List(ListKind::Types), b"(a - or)", 9, 5),
    (Form::List(ListKind::Objects), b"(a - (either t))", 8, 5),
    (Form::List(ListKind::Types), b"(a - (either t))", 8, 5),
    (Form::List(ListKind::Predicate), b"(?x - (t))", 8, 7),
    (
        Form::List(ListKind::Parameters),
        b"(?x - (either t ?u))",
        8,
        16,
    ),
    (
        Form::Formula,
        b"(and (p ?x a) (not (= ?x b)) () (forall (?y - t) (q ?y)))",
        0,
        0,
    ),
    (
        Form::Effect,
        b"(and (p) (not (q ?x)) (increase (total) 1) (when (or) (r)))",
        0,
        0,
    ),
    (Form::List(ListKind::Predicate), b"(?x - t ?X)", 0, 0),
];

#[test]
fn faults_of_forms(rt: HostRuntime) {
    for (form, source, code, at) in FORMS {
        let fault = fault_of(&rt, rt.alloc(), source, *form);
        assert!(rt; fault == (*code, *at), "at {at}");
    }
}

fn is_one_of_one(got: &Got<RawFormula>) -> bool {
    got.next == 6 && matches!(&got.value, RawFormula::Or(parts) if parts.len() == 1)
}

fn has_formula(rt: &impl Abort, alloc: Global, s: &Sexprs<'_>, names: &mut NameTable) -> bool {
    assert!(rt; s.len() > 0);
    let answer = formula(alloc, s, 0, 0, names);
    let right = matches!(&answer, Ok(got) if is_one_of_one(got));
    drop(answer);
    right && names.len() == 1
}

fn is_empty(got: &Got<RawEffect>) -> bool {
    got.next == 7 && matches!(&got.value, RawEffect::And(parts) if parts.len() == 0)
}

fn has_effect(rt: &impl Abort, alloc: Global, s: &Sexprs<'_>, names: &mut NameTable) -> bool {
    assert!(rt; s.len() > 0);
    let answer = effect(alloc, s, 0, 0, names);
    let right = matches!(&answer, Ok(got) if is_empty(got));
    drop(answer);
    right && names.len() == 0
}

fn is_union(got: &Got<RawParams>) -> bool {
    match got.value.as_slice().first() {
        Some(param) => got.next == 9 && param.at == 1 && param.ty.as_slice().len() == 2,
        None => false,
    }
}

#[tactic(auto, using(gd_reader::proofs::Items::whole_inside))]
fn has_union(rt: &impl Abort, alloc: Global, s: &Sexprs<'_>, names: &mut NameTable) -> bool {
    assert!(rt; s.close_of(0).is_some());
    let answer = typed_list(alloc, s, 1, 0, ListKind::Parameters, names);
    let right = matches!(&answer, Ok(got) if is_union(got));
    drop(answer);
    right && names.len() == 3
}

fn has_parts(rt: &impl Abort, alloc: Global, source: &[u8], form: Form) -> bool {
    assert!(rt; source.len() <= 16_777_216);
    let s = read(alloc, source, 0).ok().expect(rt, "a text");
    let mut names = NameTable::new(alloc);
    let right = match form {
        Form::Formula => has_formula(rt, alloc, &s, &mut names),
        Form::Effect => has_effect(rt, alloc, &s, &mut names),
        Form::List(_) => has_union(rt, alloc, &s, &mut names),
    };
    drop(names);
    drop(s);
    right
}

#[test]
fn forms_with_their_parts(rt: HostRuntime) {
    let formula = has_parts(&rt, rt.alloc(), b"(Or (p))", Form::Formula);
    let effect = has_parts(&rt, rt.alloc(), b"(increase (total) 1)", Form::Effect);
    let union = Form::List(ListKind::Parameters);
    let list = has_parts(&rt, rt.alloc(), b"(?x - (either t u t))", union);
    assert!(rt; formula && effect && list);
}

fn named(number: u32) -> RawTerm {
    RawTerm {
        name: Name { number },
        variable: false,
        at: number,
    }
}

// The offset of the head, the number of the terms, and the offset of the last one.
fn seen_at(
    facts: &RawFacts,
    i: usize,
    args: &mut Vec<RawTerm>,
) -> Result<Option<(u32, usize, Option<u32>)>, Memory> {
    let Some(head) = facts.read(i, args)? else {
        return Ok(None);
    };
    let last = match args.last() {
        Some(term) => Some(term.at),
        None => None,
    };
    Ok(Some((head.at, args.len(), last)))
}

const SEEN: &[Option<(u32, usize, Option<u32>)>] = &[
    Some((0, 2, Some(2))),
    Some((3, 0, None)),
    Some((4, 1, Some(5))),
    Some((70_000, 2, Some(300))),
    None,
];

fn put_facts(facts: &mut RawFacts) -> Result<(), Memory> {
    facts.push(named(0), &[named(1), named(2)])?;
    facts.push(named(3), &[])?;
    facts.push(named(4), &[named(5)])?;
    facts.push(named(70_000), &[named(6), named(300)])
}

fn are_seen(facts: &RawFacts, args: &mut Vec<RawTerm>) -> Result<bool, Memory> {
    for (i, row) in SEEN.iter().enumerate() {
        if seen_at(facts, i, args)? != *row {
            return Ok(false);
        }
    }
    Ok(true)
}

#[test]
fn no_facts(rt: HostRuntime) {
    let none = RawFacts::new(rt.alloc());
    let count = none.len();
    drop(none);
    assert!(rt; count == 0);
}

#[test]
fn facts_with_their_terms(rt: HostRuntime) {
    let mut facts = RawFacts::with_room(rt.alloc(), 1, 1).expect(&rt, "room");
    let put = put_facts(&mut facts);
    let mut args = Vec::new(rt.alloc());
    let seen = are_seen(&facts, &mut args);
    drop(args);
    let count = facts.len();
    drop(facts);
    assert!(rt; put.is_ok() && count == 4 && seen == Ok(true));
}
