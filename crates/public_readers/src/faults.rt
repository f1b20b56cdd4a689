//! Texts with two faults of names or more, the least of which is told: of the domain first, then by offset, then by code. Offsets are
//! counted by hand.

use htn_base::Fault;
use std::alloc::{AllocError, Global};
use std::process::Abort;
use text_forms::sexpr_text::ReadError;
use text_values::hddl_of;

const DOMAIN: &[u8] = b"(define (domain d) (:predicates (r ?x)) (:action a :parameters ()))";

const PROBLEM: &[u8] = b"(define (problem p) (:domain d) (:htn))";

/// The file, the code and the offset of the fault, if there is one.
fn told(rt: &impl Abort, alloc: Global, domain: &[u8], problem: &[u8]) -> Option<(u8, u16, u32)> {
    assert!(rt; domain.len() <= 16_777_216 && problem.len() <= 16_777_216);
    match hddl_of(alloc, domain, problem) {
        Ok(value) => {
            drop(value);
            None
        }
        Err(ReadError::Bad(Fault { code, file, at })) => Some((file, code, at)),
        Err(ReadError::Memory) => panic!(rt; "out of memory"),
    }
}

const FAULTS: &[(&[u8], &[u8], (u8, u16, u32))] = &[
    (
        b"(define (domain d) (:types t) (:constants c c - u))",
        PROBLEM,
        (0, 10, 44),
    ),
    (
        b"(define (domain d) (:constants c - u c))",
        PROBLEM,
        (0, 11, 35),
    ),
    (
        b"(define (domain d) (:types x - y y - x) (:constants c - u))",
        PROBLEM,
        (0, 12, 33),
    ),
    (
        b"(define (domain d) (:action a :parameters () :precondition (q b)))",
        PROBLEM,
        (0, 13, 60),
    ),
    (
        b"(define (domain d) (:task t :parameters ()) (:method m :parameters () :task (t) :subtasks (u b)))",
        PROBLEM,
        (0, 14, 91),
    ),
    (
        b"(define (domain d) (:action a :parameters (?x) :precondition (= ?x ?y) :effect (q)))",
        b"(define (problem p) (:domain d) (:htn) (:init (q)))",
        (0, 16, 67),
    ),
    (
        b"(define (domain d) (:task t :parameters ()) (:method m :parameters () :task (t b) :subtasks (u)))",
        PROBLEM,
        (0, 17, 77),
    ),
    (
        DOMAIN,
        b"(define (problem p) (:domain d) (:htn :subtasks (and (x (a)) (x (u)))))",
        (1, 10, 62),
    ),
    (
        DOMAIN,
        b"(define (problem p) (:domain d) (:htn) (:init (r b) (q)))",
        (1, 15, 49),
    ),
    (
        DOMAIN,
        b"(define (problem p) (:domain d) (:htn) (:init (r b b) (q)))",
        (1, 17, 47),
    ),
    (
        DOMAIN,
        b"(define (problem p) (:domain d) (:htn :subtasks (x (a)) :ordering (and (< x y) (< x x))))",
        (1, 19, 76),
    ),
    (
        DOMAIN,
        b"(define (problem p) (:domain d) (:htn :subtasks (x (a)) :ordering (and (< x x) (< x y))))",
        (1, 20, 71),
    ),
];

#[test]
fn least_of_two_faults(rt: HostRuntime) {
    for (domain, problem, fault) in FAULTS {
        assert!(rt; told(&rt, rt.alloc(), domain, problem) == Some(*fault));
    }
}

// A text in which so many numbered parts stand between two others.
fn put_crowd(
    alloc: Global,
    front: &str,
    part: (&str, &str),
    count: u32,
    back: &str,
    text: &mut String,
) -> Result<(), AllocError> {
    text.push_str(front)?;
    for number in 0..count {
        put_part(alloc, part, number, text)?;
    }
    text.push_str(back)
}

fn put_part(
    alloc: Global,
    part: (&str, &str),
    number: u32,
    text: &mut String,
) -> Result<(), AllocError> {
    let (before, behind) = part;
    text.push_str(before)?;
    text.push_str(&format!(in alloc; "{number}")?)?;
    text.push_str(behind)
}

fn fault_of_types(
    rt: &impl Abort,
    alloc: Global,
    count: u32,
    back: &str,
) -> Option<(u8, u16, u32)> {
    let mut text = String::new(alloc);
    let front = "(define (domain d) (:types";
    let put = put_crowd(alloc, front, (" t", ""), count, back, &mut text);
    let fault = told(rt, alloc, text.as_bytes(), PROBLEM);
    drop(text);
    assert!(rt; put.is_ok());
    fault
}

fn fault_of_subtasks(rt: &impl Abort, alloc: Global, count: u32) -> Option<(u8, u16, u32)> {
    let mut text = String::new(alloc);
    let front = "(define (problem p) (:domain d) (:htn :subtasks (and";
    let back = " (a)) :ordering (and (< x0 x0) (< x0 y))))";
    let put = put_crowd(alloc, front, (" (x", " (a))"), count, back, &mut text);
    let fault = told(rt, alloc, DOMAIN, text.as_bytes());
    drop(text);
    assert!(rt; put.is_ok());
    fault
}

const UNKNOWN: &str = " x) (:constants c - u))";

#[test]
fn least_fault_of_many_types(rt: HostRuntime) {
    let alloc = rt.alloc();
    // the 1,001st type, which is its own parent
    let own = fault_of_types(&rt, alloc, 1000, " x - x))");
    assert!(rt; own == Some((0, 12, 4917)));
    assert!(rt; fault_of_types(&rt, alloc, 1000, UNKNOWN) == Some((0, 22, 4917)));
    assert!(rt; fault_of_types(&rt, alloc, 999, UNKNOWN) == Some((0, 11, 4931)));
}

#[test]
fn least_fault_of_many_subtasks(rt: HostRuntime) {
    assert!(rt; fault_of_subtasks(&rt, rt.alloc(), 4096) == Some((1, 21, 48095)));
    assert!(rt; fault_of_subtasks(&rt, rt.alloc(), 4095) == Some((1, 20, 48103)));
}
