//! Plans of printed problems: the hierarchical plan that each shows, or the step at which it fails and why, worked out by hand.

ghost use Rattle.std.specs.Prelude.{IfSome, ◌≤◌, length};
ghost use Rattle.htn_base.specs.Limits.{longest_input};
ghost use Rattle.plan_texts.specs.SoundlyCompiled.{IsSoundlyCompiled};

use bound_calc::method_precs::compile;
use plan_model::{Checks, Compiled};
use plan_text::Plan;
use std::alloc::Global;
use text_values::hddl_of;
use tree_texts::{TreeText, Why, tree_text};

#[derive(Clone, Copy)]
enum Told {
    Text(&'static [u8]),
    Fails(u32, Why),
}

#[derive(Clone, Copy)]
struct Row {
    domain: &'static [u8],
    problem: &'static [u8],
    checks: Checks,
    slots: u32,
    plan: &'static [u8],
    told: Told,
}

const SMALLEST: &[u8] =
    b"(define (domain d) (:task t :parameters ()) (:method m :parameters () :task (t) :subtasks (a)) (:action \
a :parameters ()))";

const TOP_T: &[u8] = b"(define (problem p) (:domain d) (:htn :subtasks (t)))";

const WAITING: &[u8] =
    b"(define (domain d) (:task x :parameters ()) (:method mx :parameters () :task (x) :subtasks (and (p) \
(q))) (:action p :parameters ()) (:action q :parameters ()) (:action y :parameters ()))";

const X_BEFORE_Y: &[u8] =
    b"(define (problem p) (:domain d) (:htn :ordered-subtasks (and (x) (y))))";

const LATE: &[u8] =
    b"(define (domain d) (:predicates (ready)) (:task t :parameters ()) (:method m :parameters () :task \
(t) :precondition (ready) :subtasks (a)) (:action a :parameters ()) (:action u :parameters () :effect \
(ready)))";

const T_AND_U: &[u8] = b"(define (problem p) (:domain d) (:htn :subtasks (and (t) (u))))";

const GUARD: &[u8] =
    b"(define (domain d) (:types red - block block - object) (:task t :parameters ()) (:method m :parameters (?x \
- block) :task (t) :subtasks (paint ?x)) (:action paint :parameters (?r - red)))";

const A_BLOCK: &[u8] =
    b"(define (problem p) (:domain d) (:objects b1 - block r1 - red) (:htn :subtasks (t)))";

const TRANSPORT: &[u8] = b"(define (domain transport)\n\
\x20(:requirements :typing :hierarchy :method-preconditions)\n\
\x20(:types location locatable - object vehicle package - locatable)\n\
\x20(:predicates (road ?l1 ?l2 - location) (at ?x - locatable ?l - location) (in ?p - package ?v - vehicle))\n\
\x20(:task deliver :parameters (?p - package ?l - location))\n\
\x20(:task get-to :parameters (?v - vehicle ?l - location))\n\
\x20(:method m-deliver :parameters (?v - vehicle ?p - package ?l1 ?l2 - location) :task (deliver ?p \
?l2)\n\
\x20 :ordered-subtasks (and (get-to ?v ?l1) (pick-up ?v ?l1 ?p) (get-to ?v ?l2) (drop ?v ?l2 ?p)))\n\
\x20(:method m-via :parameters (?v - vehicle ?l1 ?l2 ?l3 - location) :task (get-to ?v ?l3)\n\
\x20 :ordered-subtasks (and (drive ?v ?l1 ?l2) (get-to ?v ?l3)))\n\
\x20(:method m-there :parameters (?v - vehicle ?l - location) :task (get-to ?v ?l) :precondition (at \
?v ?l) :subtasks ())\n\
\x20(:action drive :parameters (?v - vehicle ?l1 ?l2 - location)\n\
\x20 :precondition (and (at ?v ?l1) (road ?l1 ?l2)) :effect (and (not (at ?v ?l1)) (at ?v ?l2)))\n\
\x20(:action pick-up :parameters (?v - vehicle ?l - location ?p - package)\n\
\x20 :precondition (and (at ?v ?l) (at ?p ?l)) :effect (and (not (at ?p ?l)) (in ?p ?v)))\n\
\x20(:action drop :parameters (?v - vehicle ?l - location ?p - package)\n\
\x20 :precondition (and (at ?v ?l) (in ?p ?v)) :effect (and (not (in ?p ?v)) (at ?p ?l))))\n";

const DELIVERIES: &[u8] = b"(define (problem two-trucks) (:domain transport)\n\
\x20(:objects l0 l1 l2 - location v1 v2 - vehicle p1 p2 p3 - package)\n\
\x20(:htn :parameters () :subtasks (and (deliver p1 l1) (deliver p2 l1) (deliver p3 l1)))\n\
\x20(:init (road l0 l1) (road l1 l0) (road l1 l2) (road l2 l1)\n\
\x20 (at v1 l0) (at v2 l2) (at p1 l0) (at p2 l0) (at p3 l2)))\n";

const DELIVERED: &[u8] = b"(htn_start htn_s1 htn_s2 htn_s3)\n\
(htn_m_m-deliver htn_s2 htn_s4 htn_s5 htn_s6 v1 p1 l0 l1)\n\
(htn_m_m-there htn_s4 v1 l0)\n\
(htn_c_m-there htn_s4 v1 l0)\n\
(pick-up htn_s5 v1 l0 p1)\n\
(htn_m_m-deliver htn_s3 htn_s4 htn_s5 htn_s7 v1 p2 l0 l1)\n\
(htn_m_m-there htn_s4 v1 l0)\n\
(htn_c_m-there htn_s4 v1 l0)\n\
(pick-up htn_s5 v1 l0 p2)\n\
(htn_m_m-deliver htn_s1 htn_s4 htn_s5 htn_s8 v2 p3 l2 l1)\n\
(htn_m_m-there htn_s4 v2 l2)\n\
(htn_c_m-there htn_s4 v2 l2)\n\
(pick-up htn_s5 v2 l2 p3)\n\
(htn_m_m-via htn_s6 htn_s4 v1 l0 l1 l1)\n\
(drive htn_s4 v1 l0 l1)\n\
(htn_m_m-via htn_s8 htn_s4 v2 l2 l1 l1)\n\
(drive htn_s4 v2 l2 l1)\n\
(htn_m_m-there htn_s6 v1 l1)\n\
(htn_c_m-there htn_s6 v1 l1)\n\
(drop htn_s2 v1 l1 p1)\n\
(htn_m_m-there htn_s7 v1 l1)\n\
(htn_c_m-there htn_s7 v1 l1)\n\
(drop htn_s3 v1 l1 p2)\n\
(htn_m_m-there htn_s8 v2 l1)\n\
(htn_c_m-there htn_s8 v2 l1)\n\
(drop htn_s1 v2 l1 p3)\n";

const ROWS: &[Row] = &[
    // the smallest problem
    Row {
        domain: SMALLEST,
        problem: TOP_T,
        checks: Checks::Leaf,
        slots: 1,
        plan: b"(htn_start htn_s1)(htn_m_m htn_s1)(a htn_s1)",
        told: Told::Text(
            b"==>\n\
0 a\n\
root 1\n\
1 t -> m 0\n\
<==\n",
        ),
    },
    // comments, step numbers and upper case
    Row {
        domain: SMALLEST,
        problem: TOP_T,
        checks: Checks::Leaf,
        slots: 1,
        plan: b"; cost = 3 (unit cost)\n\
0: (HTN_START HTN_S1)\n\
1: (HTN_M_M HTN_S1)\n\
2: (A HTN_S1)\n",
        told: Told::Text(
            b"==>\n\
0 a\n\
root 1\n\
1 t -> m 0\n\
<==\n",
        ),
    },
    // nothing to do
    Row {
        domain: SMALLEST,
        problem: b"(define (problem p) (:domain d) (:htn :subtasks ()))",
        checks: Checks::Leaf,
        slots: 1,
        plan: b"(htn_start htn_s1)",
        told: Told::Text(
            b"==>\n\
root\n\
<==\n",
        ),
    },
    // an open leaf is left
    Row {
        domain: SMALLEST,
        problem: TOP_T,
        checks: Checks::Leaf,
        slots: 1,
        plan: b"(htn_start htn_s1)",
        told: Told::Fails(2, Why::Unfinished),
    },
    // no step
    Row {
        domain: SMALLEST,
        problem: TOP_T,
        checks: Checks::Leaf,
        slots: 1,
        plan: b"",
        told: Told::Fails(1, Why::Unfinished),
    },
    // no action of this name
    Row {
        domain: SMALLEST,
        problem: TOP_T,
        checks: Checks::Leaf,
        slots: 1,
        plan: b"(htn_start htn_s1)(htn_m_n htn_s1)",
        told: Told::Fails(2, Why::UnknownAction),
    },
    // too many arguments
    Row {
        domain: SMALLEST,
        problem: TOP_T,
        checks: Checks::Leaf,
        slots: 1,
        plan: b"(htn_start htn_s1)(htn_m_m htn_s1 htn_s1)",
        told: Told::Fails(2, Why::Arguments),
    },
    // a slot that is not there
    Row {
        domain: SMALLEST,
        problem: TOP_T,
        checks: Checks::Leaf,
        slots: 1,
        plan: b"(htn_start htn_s1)(htn_m_m htn_s2)",
        told: Told::Fails(2, Why::Arguments),
    },
    // the slot holds the task
    Row {
        domain: SMALLEST,
        problem: TOP_T,
        checks: Checks::Leaf,
        slots: 1,
        plan: b"(htn_start htn_s1)(a htn_s1)",
        told: Told::Fails(2, Why::SlotHolds),
    },
    // tail recursion
    Row {
        domain: b"(define (domain d) (:task t :parameters ()) (:method m1 :parameters () :task (t) :ordered-subtasks \
(and (a) (t))) (:method m0 :parameters () :task (t) :subtasks ()) (:action a :parameters ()))",
        problem: TOP_T,
        checks: Checks::Leaf,
        slots: 2,
        plan: b"(htn_start htn_s1)(htn_m_m1 htn_s1 htn_s2)(a htn_s2)(htn_m_m0 htn_s1)",
        told: Told::Text(
            b"==>\n\
0 a\n\
root 1\n\
1 t -> m1 0 2\n\
2 t -> m0\n\
<==\n",
        ),
    },
    // the new slot is the old one
    Row {
        domain: b"(define (domain d) (:task t :parameters ()) (:method m :parameters () :task (t) :subtasks (and (a) \
(b))) (:action a :parameters ()) (:action b :parameters ()))",
        problem: TOP_T,
        checks: Checks::Leaf,
        slots: 1,
        plan: b"(htn_start htn_s1)(htn_m_m htn_s1 htn_s1)",
        told: Told::Fails(2, Why::SlotTaken),
    },
    // y comes after all of x
    Row {
        domain: WAITING,
        problem: X_BEFORE_Y,
        checks: Checks::Leaf,
        slots: 3,
        plan: b"(htn_start htn_s1 htn_s2)(htn_m_mx htn_s2 htn_s3)(p htn_s3)(y htn_s1)",
        told: Told::Fails(4, Why::Waiting),
    },
    // and after its heir
    Row {
        domain: WAITING,
        problem: X_BEFORE_Y,
        checks: Checks::Leaf,
        slots: 3,
        plan: b"(htn_start htn_s1 htn_s2)(htn_m_mx htn_s2 htn_s3)(q htn_s2)(y htn_s1)",
        told: Told::Fails(4, Why::Waiting),
    },
    // a check at its leaf
    Row {
        domain: LATE,
        problem: T_AND_U,
        checks: Checks::Leaf,
        slots: 3,
        plan: b"(htn_start htn_s1 htn_s2)(htn_m_m htn_s2 htn_s3)(u htn_s1)(htn_c_m htn_s3)(a htn_s2)",
        told: Told::Text(
            b"==>\n\
0 u\n\
1 a\n\
root 2 0\n\
2 t -> m 1\n\
<==\n",
        ),
    },
    // a precondition at once
    Row {
        domain: LATE,
        problem: T_AND_U,
        checks: Checks::AtOnce,
        slots: 2,
        plan: b"(htn_start htn_s1 htn_s2)(u htn_s1)(htn_m_m htn_s2)(a htn_s2)",
        told: Told::Text(
            b"==>\n\
0 u\n\
1 a\n\
root 2 0\n\
2 t -> m 1\n\
<==\n",
        ),
    },
    // which is false
    Row {
        domain: LATE,
        problem: T_AND_U,
        checks: Checks::AtOnce,
        slots: 2,
        plan: b"(htn_start htn_s1 htn_s2)(htn_m_m htn_s2)(u htn_s1)(a htn_s2)",
        told: Told::Fails(2, Why::Precondition),
    },
    // the goal is false
    Row {
        domain: b"(define (domain d) (:predicates (g)) (:task t :parameters ()) (:method m :parameters () :task (t) \
:subtasks (a)) (:action a :parameters ()))",
        problem: b"(define (problem p) (:domain d) (:htn :subtasks (t)) (:goal (g)))",
        checks: Checks::Leaf,
        slots: 1,
        plan: b"(htn_start htn_s1)(htn_m_m htn_s1)(a htn_s1)",
        told: Told::Fails(4, Why::GoalFalse),
    },
    // the block is not red
    Row {
        domain: GUARD,
        problem: A_BLOCK,
        checks: Checks::Leaf,
        slots: 1,
        plan: b"(htn_start htn_s1)(htn_m_m htn_s1 b1)",
        told: Told::Fails(2, Why::Constraint),
    },
    // the red one
    Row {
        domain: GUARD,
        problem: A_BLOCK,
        checks: Checks::Leaf,
        slots: 1,
        plan: b"(htn_start htn_s1)(htn_m_m htn_s1 r1)(paint htn_s1 r1)",
        told: Told::Text(
            b"==>\n\
0 paint r1\n\
root 1\n\
1 t -> m 0\n\
<==\n",
        ),
    },
    // an object of no part of the union
    Row {
        domain: b"(define (domain d) (:types a b) (:task t :parameters ()) (:method m :parameters (?x) :task (t) :subtasks \
(paint ?x)) (:action paint :parameters (?r - (either a b))))",
        problem: b"(define (problem p) (:domain d) (:objects o1 - a o2 - b o3) (:htn :subtasks (t)))",
        checks: Checks::Leaf,
        slots: 1,
        plan: b"(htn_start htn_s1)(htn_m_m htn_s1 o3)",
        told: Told::Fails(2, Why::Constraint),
    },
    // two trucks and three packages
    Row {
        domain: TRANSPORT,
        problem: DELIVERIES,
        checks: Checks::Leaf,
        slots: 15,
        plan: DELIVERED,
        told: Told::Text(
            b"==>\n\
0 pick-up v1 l0 p1\n\
1 pick-up v1 l0 p2\n\
2 pick-up v2 l2 p3\n\
3 drive v1 l0 l1\n\
4 drive v2 l2 l1\n\
5 drop v1 l1 p1\n\
6 drop v1 l1 p2\n\
7 drop v2 l1 p3\n\
root 8 10 12\n\
8 deliver p1 l1 -> m-deliver 9 0 14 5\n\
9 get-to v1 l0 -> m-there\n\
10 deliver p2 l1 -> m-deliver 11 1 17 6\n\
11 get-to v1 l0 -> m-there\n\
12 deliver p3 l1 -> m-deliver 13 2 15 7\n\
13 get-to v2 l2 -> m-there\n\
14 get-to v1 l1 -> m-via 3 16\n\
15 get-to v2 l1 -> m-via 4 18\n\
16 get-to v1 l1 -> m-there\n\
17 get-to v1 l1 -> m-there\n\
18 get-to v2 l1 -> m-there\n\
<==\n",
        ),
    },
];

fn compiled(alloc: Global, row: &Row) -> Option<Compiled>
    ensures soundly { IfSome result IsSoundlyCompiled }
{
    if row.domain.len() > 16_777_216 || row.problem.len() > 16_777_216 {
        return None;
    }
    match hddl_of(alloc, row.domain, row.problem) {
        Ok(value) => match compile(alloc, value, &row.checks) {
            Ok(compiled) => Some(compiled),
            Err(_) => None,
        },
        Err(_) => None,
    }
}

fn answer(alloc: Global, compiled: &Compiled, row: &Row) -> Option<TreeText>
    requires soundly { IsSoundlyCompiled compiled.now }
{
    if row.slots == 0 || row.slots > 65_536 || row.plan.len() > 16_777_216 {
        return None;
    }
    let plan = Plan::new(alloc, row.plan, 2).ok()?;
    if plan.len() > 1_000_000 {
        return None;
    }
    tree_text(alloc, compiled, row.slots, &plan, 1_000_000).ok()
}

fn is_told(alloc: Global, row: &Row) -> bool {
    let Some(compiled) = compiled(alloc, row) else {
        return false;
    };
    match (answer(alloc, &compiled, row), row.told) {
        (Some(TreeText::Whole(text)), Told::Text(want)) => text.as_slice() == want,
        (Some(TreeText::Fails { step, why }), Told::Fails(at, cause)) => step == at && why == cause,
        _ => false,
    }
}

#[test]
fn plans_become_trees(rt: HostRuntime) {
    for row in ROWS {
        let told = is_told(rt.alloc(), row);
        assert!(rt; told);
    }
}
