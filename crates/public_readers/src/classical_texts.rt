//! Small PDDL texts with ample memory: their least fault, and the value of two without one. Offsets are counted by hand.

use htn_base::{Fault, Memory, Text};
use plan_model::Pddl;
use std::alloc::Global;
use std::process::Abort;
use text_forms::sexpr_text::ReadError;
use text_values::pddl_of;

// The file, the code and the offset of the fault, if there is one.
fn fault_of(rt: &impl Abort, alloc: Global, domain: &[u8], problem: &[u8]) -> (u8, u16, u32) {
    assert!(rt; domain.len() <= 16_777_216 && problem.len() <= 16_777_216);
    match pddl_of(alloc, domain, problem) {
        Ok(value) => {
            drop(value);
            (0, 0, 0)
        }
        Err(ReadError::Bad(Fault { code, file, at })) => (file, code, at),
        Err(ReadError::Memory) => panic!(rt; "out of memory"),
    }
}

const DOMAIN: &[u8] = b"(define (domain d)(:predicates (q ?x))(:constants a))";

const PROBLEM: &[u8] = b"(define (problem p))";

const FAULTS: &[(&[u8], &[u8], u8, u16, u32)] = &[
    (b"(define (domain d))", PROBLEM, 0, 0, 0),
    (b"(define (domain d)", PROBLEM, 0, 2, 0),
    (DOMAIN, b"(define (problem p)))", 1, 3, 20),
    (DOMAIN, b"", 1, 5, 0),
    (b"(define (domain d)(:task t))", b")", 0, 6, 19),
    (DOMAIN, b"(define (problem p)(:htn))", 1, 6, 20),
    (b"(define (domain d)(:types)(:types))", PROBLEM, 0, 7, 27),
    (b"(define (domain d)(:action))", PROBLEM, 0, 8, 26),
    (b"(define (domain d)(:action when))", PROBLEM, 0, 9, 27),
    (
        b"(define (domain d)(:action a)(:action a))",
        PROBLEM,
        0,
        10,
        38,
    ),
    (DOMAIN, b"(define (problem p)(:objects b a))", 1, 10, 31),
    (
        b"(define (domain d)(:predicates (p ?x - t)))",
        PROBLEM,
        0,
        11,
        39,
    ),
    (b"(define (domain d)(:types a - a))", PROBLEM, 0, 12, 26),
    (DOMAIN, b"(define (problem p)(:goal (p)))", 1, 13, 27),
    (DOMAIN, b"(define (problem p)(:init (q b)))", 1, 15, 29),
    (
        b"(define (domain d)(:predicates (q ?x))(:action a :effect (q ?y)))",
        PROBLEM,
        0,
        16,
        60,
    ),
    (DOMAIN, b"(define (problem p)(:init (q a a)))", 1, 17, 27),
    (
        b"(define (domain d)(:action a :parameters (?x ?x)))",
        PROBLEM,
        0,
        18,
        45,
    ),
    (DOMAIN, b"(define (problem p)(:init (q a)))", 0, 0, 0),
];

#[test]
fn faults_of_small_texts(rt: HostRuntime) {
    for (domain, problem, file, code, at) in FAULTS {
        let told = fault_of(&rt, rt.alloc(), domain, problem);
        assert!(rt; told == (*file, *code, *at), "at {at}");
    }
}

const SMALL: &[u8] =
    b"(define (problem p)(:domain e)(:objects b c)(:init (q a)(q c))(:goal (q b)))";

fn is_small(value: &Pddl) -> bool {
    value.types.names.len() == 1
        && value.objects.len() == 3
        && value.predicates.len() == 1
        && value.init.len() == 2
}

#[test]
fn reads_a_small_problem(rt: HostRuntime) {
    match pddl_of(rt.alloc(), DOMAIN, SMALL) {
        Ok(value) => {
            let small = is_small(&value);
            drop(value);
            assert!(rt; small);
        }
        Err(_) => panic!(rt; "a fault"),
    }
}

// A domain with so many types beside object, each of five letters behind a space.
fn put_types(types: u32, text: &mut Text) -> Result<(), Memory> {
    text.push_all(b"(define (domain d)(:types")?;
    for k in 0..types {
        let word = [
            b' ',
            b't',
            digit(k / 1000),
            digit(k / 100),
            digit(k / 10),
            digit(k),
        ];
        text.push_all(&word)?;
    }
    text.push_all(b"))")
}

fn digit(number: u32) -> u8 {
    b'0' + (number % 10) as u8
}

fn fault_of_types(rt: &impl Abort, alloc: Global, types: u32) -> (u8, u16, u32) {
    let mut text = Text::new(alloc);
    let put = put_types(types, &mut text);
    let told = fault_of(rt, alloc, text.as_slice(), PROBLEM);
    drop(text);
    assert!(rt; put.is_ok());
    told
}

// The types begin at 25.
#[test]
fn as_many_types_as_may_be(rt: HostRuntime) {
    assert!(rt; fault_of_types(&rt, rt.alloc(), 1002) == (0, 0, 0));
    assert!(rt; fault_of_types(&rt, rt.alloc(), 1003) == (0, 22, 26 + 6 * 1002));
}
