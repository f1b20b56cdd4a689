//! Whole domains and problems with the fault of form that each has, code 0 for none; and a text that uses each line of the grammar,
//! whole and cut at each byte. Codes and offsets are those of the grammar's worked rows, which were counted by hand.

use hddl_reader::{Definition, Language, RawDomain, RawProblem, domain, problem};
use htn_base::{Fault, Memory, NameTable, Text};
use std::alloc::Global;
use std::process::Abort;
use text_forms::sexpr_text::{ReadError, Sexprs, read};

// The code and the offset of the fault, if there is one.
fn told<T: Drop>(rt: &impl Abort, answer: Result<T, ReadError>) -> (u16, u32) {
    match answer {
        Ok(value) => {
            drop(value);
            (0, 0)
        }
        Err(ReadError::Bad(Fault { code, file, at })) => {
            assert!(rt; file == 1);
            (code, at)
        }
        Err(ReadError::Memory) => panic!(rt; "out of memory"),
    }
}

fn fault_of(
    rt: &impl Abort,
    alloc: Global,
    source: &[u8],
    language: Language,
    definition: Definition,
) -> (u16, u32) {
    assert!(rt; source.len() <= 16_777_216);
    match read(alloc, source, 1) {
        Ok(s) => {
            let fault = fault_of_tokens(rt, alloc, &s, language, definition);
            drop(s);
            fault
        }
        Err(error) => told::<()>(rt, Err(error)),
    }
}

fn fault_of_tokens(
    rt: &impl Abort,
    alloc: Global,
    s: &Sexprs<'_>,
    language: Language,
    definition: Definition,
) -> (u16, u32) {
    let mut names = NameTable::new(alloc);
    let fault = match definition {
        Definition::Domain => told(rt, domain(alloc, s, 1, language, &mut names)),
        Definition::Problem => told(rt, problem(alloc, s, 1, language, &mut names)),
    };
    drop(names);
    fault
}

const DOMAINS: &[(&[u8], u16, u32)] = &[
    (b"  ; nothing", 5, 11),
    (b"define", 5, 0),
    (b"()", 5, 1),
    (b"(define)", 5, 7),
    (b"(define d)", 5, 8),
    (b"(define (problem d))", 5, 9),
    (b"(define (domain (d)))", 5, 16),
    (b"(define (domain :d))", 5, 16),
    (b"(define (domain d e))", 5, 18),
    (b"(define (domain and))", 9, 16),
    (b"(define (domain d))", 0, 0),
    (b"(define (domain d)) x", 8, 20),
    (b"(define (domain d)(:metric))", 6, 19),
    (b"(define (domain d)(:task t :subtasks ()))", 6, 27),
    (b"(define (domain d)(:action a :task (t)))", 6, 29),
    (
        b"(define (domain d)(:method m :task (t) :effect ()))",
        6,
        39,
    ),
    (b"(define (domain d)(:types)(:types))", 7, 27),
    (
        b"(define (domain d)(:action a :parameters () :parameters ()))",
        7,
        44,
    ),
    (b"(define (domain d)(:method m :task (t) :task (t)))", 7, 39),
    (
        b"(define (domain d)(:method m :task (t) :subtasks () :ordered-tasks ()))",
        7,
        52,
    ),
    (
        b"(define (domain d)(:method m :task (t) :order () :ordering ()))",
        7,
        49,
    ),
    (
        b"(define (domain d)(:action a)(:task t)(:action b)(:task u))",
        0,
        0,
    ),
];

const SCHEMAS: &[(&[u8], u16, u32)] = &[
    (b"(define (domain d)x)", 8, 18),
    (b"(define (domain d)())", 8, 19),
    (b"(define (domain d)(types))", 8, 19),
    (b"(define (domain d)((:types)))", 8, 19),
    (b"(define (domain d)(:requirements :adl (x)))", 8, 38),
    (b"(define (domain d)(:predicates p))", 8, 31),
    (b"(define (domain d)(:action))", 8, 26),
    (b"(define (domain d)(:action a (p)))", 8, 29),
    (b"(define (domain d)(:action a :effect))", 8, 36),
    (b"(define (domain d)(:task t :precondition (p)))", 8, 42),
    (b"(define (domain d)(:method m :subtasks ()))", 8, 41),
    (b"(define (domain d)(:method m :task (not)))", 8, 36),
    (b"(define (domain d)(:task not))", 9, 25),
    (b"(define (domain d)(:method when))", 9, 27),
    (b"(define (domain d)(:action increase))", 9, 27),
    (b"(define (domain d)(:predicates (and)))", 9, 32),
    (b"(define (domain d)(:constants a <))", 9, 32),
    (b"(define (domain d)(:types a - imply))", 9, 30),
    (
        b"(define (domain d)(:action a :parameters (?x ?x)))",
        18,
        45,
    ),
    (
        b"(define (domain d)(:task t :parameters (?x - a ?x)))",
        18,
        47,
    ),
    (b"(define (domain d)(:predicates (p ?x ?x)))", 0, 0),
];

const PROBLEMS: &[(&[u8], u16, u32)] = &[
    (b"(define (domain d))", 5, 9),
    (b"(define (problem <))", 9, 17),
    (b"(define (problem p))", 8, 19),
    (b"(define (problem p)(:htn))()", 8, 26),
    (b"(define (problem p)(:functions)(:htn))", 6, 20),
    (b"(define (problem p)(:goal (p))(:goal (q))(:htn))", 7, 31),
    (b"(define (problem p)(:htn)(:htn))", 7, 26),
    (b"(define (problem p)(:domain and)(:htn))", 8, 28),
    (b"(define (problem p)(:domain d e)(:htn))", 8, 30),
    (b"(define (problem p)(:goal)(:htn))", 8, 25),
    (b"(define (problem p)(:goal (p) (q))(:htn))", 8, 30),
    (b"(define (problem p)(:objects <)(:htn))", 9, 29),
    (
        b"(define (problem p)(:metric minimize (total-cost))(:htn))",
        0,
        0,
    ),
    (b"(define (problem p)(:htn :task (t))(:htn))", 6, 25),
    (
        b"(define (problem p)(:htn :tasks () :subtasks ())(:htn))",
        7,
        35,
    ),
    (
        b"(define (problem p)(:htn :subtasks (and (and)))(:htn))",
        9,
        41,
    ),
    (
        b"(define (problem p)(:htn :parameters (?x ?x))(:htn))",
        18,
        41,
    ),
    (b"(define (problem p)(:init (= (c x) 0) (p a))(:htn))", 0, 0),
    (b"(define (problem p)(:init (p ?x))(:htn))", 8, 29),
    (b"(define (problem p)(:init (not (p)))(:htn))", 8, 27),
    (b"(define (problem p)(:init (= c 0))(:htn))", 8, 29),
    (b"(define (problem p)(:init (= (c)))(:htn))", 8, 32),
];

const NETWORKS: &[(&[u8], u16, u32)] = &[
    (b"(define (problem p)(:htn :subtasks ()))", 0, 0),
    (b"(define (problem p)(:htn :subtasks (a ?x b)))", 0, 0),
    (b"(define (problem p)(:htn :subtasks (i (a ?x))))", 0, 0),
    (
        b"(define (problem p)(:htn :subtasks (and (a) (i (b c)))))",
        0,
        0,
    ),
    (b"(define (problem p)(:htn :subtasks (or (a))))", 9, 36),
    (
        b"(define (problem p)(:htn :subtasks (and (not (a)))))",
        9,
        41,
    ),
    (b"(define (problem p)(:htn :subtasks (i (or))))", 8, 39),
    (b"(define (problem p)(:htn :subtasks (:i (a))))", 8, 36),
    (b"(define (problem p)(:htn :subtasks (and ())))", 8, 41),
    (b"(define (problem p)(:htn :subtasks (and a)))", 8, 40),
    (b"(define (problem p)(:htn :subtasks (a ?x (b))))", 8, 41),
    (b"(define (problem p)(:htn :subtasks (i (a) b)))", 8, 42),
    (
        b"(define (problem p)(:htn :ordering (and (< x y) (y < z))))",
        0,
        0,
    ),
    (b"(define (problem p)(:htn :ordering (x < y)))", 0, 0),
    (b"(define (problem p)(:htn :ordering (< x)))", 8, 39),
    (b"(define (problem p)(:htn :ordering (x y)))", 8, 38),
    (b"(define (problem p)(:htn :ordering (< < y)))", 8, 38),
    (b"(define (problem p)(:htn :ordering (x < and)))", 8, 40),
    (
        b"(define (problem p)(:htn :ordering (and (< x y z))))",
        8,
        47,
    ),
    (
        b"(define (problem p)(:htn :constraints (and (= ?x ?y) (not (= ?x a)))))",
        0,
        0,
    ),
    (
        b"(define (problem p)(:htn :constraints (not (= ?x ?y))))",
        0,
        0,
    ),
    (b"(define (problem p)(:htn :constraints (p ?x)))", 8, 39),
    (b"(define (problem p)(:htn :constraints (not (p))))", 8, 44),
    (b"(define (problem p)(:htn :constraints (= ?x)))", 8, 43),
];

const PDDL_DOMAINS: &[(&[u8], u16, u32)] = &[
    (b"(define (domain d)(:task t))", 6, 19),
    (b"(define (domain d)(:method m))", 6, 19),
];

const PDDL_PROBLEMS: &[(&[u8], u16, u32)] = &[
    (b"(define (problem p))", 0, 0),
    (b"(define (problem p)(:htn))", 6, 20),
];

fn have_faults(
    rt: &impl Abort,
    alloc: Global,
    rows: &[(&[u8], u16, u32)],
    language: Language,
    definition: Definition,
) {
    for (source, code, at) in rows {
        let told = fault_of(rt, alloc, source, language, definition);
        assert!(rt; told == (*code, *at), "at {at}");
    }
}

#[test]
fn faults_of_definitions(rt: HostRuntime) {
    let alloc = rt.alloc();
    have_faults(&rt, alloc, DOMAINS, Language::Hddl, Definition::Domain);
    have_faults(&rt, alloc, SCHEMAS, Language::Hddl, Definition::Domain);
    have_faults(&rt, alloc, PROBLEMS, Language::Hddl, Definition::Problem);
    have_faults(&rt, alloc, NETWORKS, Language::Hddl, Definition::Problem);
    have_faults(&rt, alloc, PDDL_DOMAINS, Language::Pddl, Definition::Domain);
    have_faults(
        &rt,
        alloc,
        PDDL_PROBLEMS,
        Language::Pddl,
        Definition::Problem,
    );
}

// Each line of the grammar, and what is dropped.
const DOMAIN: &[u8] = b"(define (domain Road) ; a comment (
 (:requirements :typing :hierarchy) (:types truck - vehicle vehicle place)
 (:constants Depot - place) (:predicates (at ?v - vehicle ?p - place) (big ?x - (either truck place)))
 (:functions (cost) - number) (:task go :parameters (?v - vehicle ?p) :precondition () :effect ())
 (:method stay :parameters (?v - vehicle ?p ?q) :task (go ?v ?p)
  :precondition (and (or (at ?v ?p) (big ?v)) (not (= ?p ?q)) (forall (?t - truck) (imply (at ?t ?p) (exists (?x) (at ?x ?p)))) ())
  :ordered-subtasks (and (move ?v ?q) (last (go ?v ?p))))
 (:method walk :task (go ?v ?p) :tasks (and (a (move ?v ?p)) (b (move ?v ?p)))
  :order (and (< a b) (b < a)) :constraints (and (= ?v ?p) (not (= ?v Depot))))
 (:action move :parameters (?v ?p) :precondition (at ?v ?p)
  :effect (and (not (at ?v ?p)) (when (big ?v) (at ?v ?p)) (forall (?t - truck) (big ?t)) (increase (cost) 1) ())))";

const PROBLEM: &[u8] =
    b"(define (problem p) (:domain road) (:requirements :adl) (:objects t1 t2 - truck home)
 (:htn :parameters (?p - place) :subtasks (go t1 ?p) :ordering () :constraints ())
 (:init (at t1 home) (= (cost) 0) (big t2)) (:goal (and (at t1 depot))) (:metric minimize (cost)))";

fn is_read_whole(d: &RawDomain) -> bool {
    match (
        d.methods.as_slice(),
        d.actions.as_slice(),
        d.tasks.as_slice(),
    ) {
        ([stay, walk], [_], [go]) => {
            d.types.len() == 3
                && d.constants.len() == 1
                && d.predicates.len() == 2
                && go.params.len() == 2
                && stay.net.ordered
                && stay.net.subs.len() == 2
                && !walk.net.ordered
                && walk.head.params.len() == 0
                && walk.net.pairs.len() == 2
                && walk.net.constraints.len() == 2
        }
        _ => false,
    }
}

fn is_problem(p: &RawProblem) -> bool {
    p.objects.len() == 3
        && p.params.len() == 1
        && p.net.subs.len() == 1
        && !p.net.ordered
        && p.net.pairs.len() == 0
        && p.init.len() == 2
}

// Words of requirements, functions, increases, assignments and the metric are not kept.
#[test]
fn each_line_of_the_grammar(rt: HostRuntime) {
    let mut names = NameTable::new(rt.alloc());
    let domain_read = reads_domain(&rt, rt.alloc(), &mut names);
    let problem_read = reads_problem(&rt, rt.alloc(), &mut names);
    drop(names);
    assert!(rt; domain_read && problem_read);
}

fn reads_domain(rt: &impl Abort, alloc: Global, names: &mut NameTable) -> bool {
    let s = read(alloc, DOMAIN, 0).ok().expect(rt, "a text");
    let answer = domain(alloc, &s, 0, Language::Hddl, names);
    drop(s);
    let whole = matches!(&answer, Ok(d) if is_read_whole(d));
    drop(answer);
    whole && names.find(b"cost").is_none() && names.find(b":typing").is_none()
}

fn reads_problem(rt: &impl Abort, alloc: Global, names: &mut NameTable) -> bool {
    let s = read(alloc, PROBLEM, 1).ok().expect(rt, "a text");
    let answer = problem(alloc, &s, 1, Language::Hddl, names);
    drop(s);
    let whole = matches!(&answer, Ok(p) if is_problem(p));
    drop(answer);
    whole && names.find(b"cost").is_none() && names.find(b"minimize").is_none()
}

fn refuses_each_prefix(rt: &impl Abort, alloc: Global, text: &[u8], definition: Definition) {
    for end in 0..text.len() {
        let (code, _) = fault_of(rt, alloc, &text[..end], Language::Hddl, definition);
        assert!(rt; code == if end == 0 { 5 } else { 2 }, "at {end}");
    }
}

// Cut behind its first byte, a list is open: fault 2 of the tokens at its opening parenthesis, and the text's own
// parenthesis at the last cut. No tokens have fault 5 at the length.
#[test]
fn each_prefix_is_refused(rt: HostRuntime) {
    refuses_each_prefix(&rt, rt.alloc(), DOMAIN, Definition::Domain);
    refuses_each_prefix(&rt, rt.alloc(), PROBLEM, Definition::Problem);
}

// An action with so many lists in its condition, each in the one in front of it.
fn put_deep(lists: u32, text: &mut Text) -> Result<(), Memory> {
    text.push_all(b"(define (domain d)(:action a :precondition ")?;
    for _ in 0..lists {
        text.push_all(b"(and")?;
    }
    for _ in 0..lists {
        text.push_all(b")")?;
    }
    text.push_all(b"))")
}

fn fault_of_deep(rt: &impl Abort, alloc: Global, lists: u32) -> (u16, u32) {
    let mut text = Text::new(alloc);
    let put = put_deep(lists, &mut text);
    let fault = fault_of(
        rt,
        alloc,
        text.as_slice(),
        Language::Hddl,
        Definition::Domain,
    );
    drop(text);
    assert!(rt; put.is_ok());
    fault
}

// The lists of the domain and of the action are open around those of the condition, which begin at 43.
#[test]
fn conditions_as_deep_as_lists_may_be(rt: HostRuntime) {
    assert!(rt; fault_of_deep(&rt, rt.alloc(), 198) == (0, 0));
    assert!(rt; fault_of_deep(&rt, rt.alloc(), 199) == (4, 43 + 4 * 198));
}
