//! The circle of a user over the problem of examples/transport: its hierarchical plan is encoded, the texts are translated, the steps are
//! validated against what was written, and decoded again; with first-free slots, and, where the deliveries come one after the other, as
//! a stack too. The steps in order were made by a script that counts slots and cells by their rules, and shares nothing with the program.
use super::Outside;
use htn_base::Memory;
use htn_cli::{Status, run};
use memory_io::MemSink;
use std::alloc::Global;
use std::process::Abort;
use std::test::Fail;

const DOMAIN: &str = concat!(
    "(define (domain transport)",
    " (:requirements :typing :hierarchy :method-preconditions)",
    " (:types location locatable - object vehicle package - locatable)",
    " (:predicates (road ?l1 ?l2 - location) (at ?x - locatable ?l - location) (in ?p - package ?v - vehicle))",
    " (:task deliver :parameters (?p - package ?l - location))",
    " (:task get-to :parameters (?v - vehicle ?l - location))",
    " (:method m-deliver :parameters (?v - vehicle ?p - package ?l1 ?l2 - location) :task (deliver ?p ?l2)",
    " :ordered-subtasks (and (get-to ?v ?l1) (pick-up ?v ?l1 ?p) (get-to ?v ?l2) (drop ?v ?l2 ?p)))",
    " (:method m-via :parameters (?v - vehicle ?l1 ?l2 ?l3 - location) :task (get-to ?v ?l3)",
    " :ordered-subtasks (and (drive ?v ?l1 ?l2) (get-to ?v ?l3)))",
    " (:method m-there :parameters (?v - vehicle ?l - location) :task (get-to ?v ?l) :precondition (at ?v ?l) :subtasks ())",
    " (:action drive :parameters (?v - vehicle ?l1 ?l2 - location)",
    " :precondition (and (at ?v ?l1) (road ?l1 ?l2)) :effect (and (not (at ?v ?l1)) (at ?v ?l2)))",
    " (:action pick-up :parameters (?v - vehicle ?l - location ?p - package)",
    " :precondition (and (at ?v ?l) (at ?p ?l)) :effect (and (not (at ?p ?l)) (in ?p ?v)))",
    " (:action drop :parameters (?v - vehicle ?l - location ?p - package)",
    " :precondition (and (at ?v ?l) (in ?p ?v)) :effect (and (not (in ?p ?v)) (at ?p ?l))))",
);

const IN_ANY_ORDER: &str = concat!(
    "(define (problem two-trucks) (:domain transport)",
    " (:objects l0 l1 l2 - location v1 v2 - vehicle p1 p2 p3 - package)",
    " (:htn :parameters () :subtasks (and (deliver p1 l1) (deliver p2 l1) (deliver p3 l1)))",
    " (:init (road l0 l1) (road l1 l0) (road l1 l2) (road l2 l1)",
    " (at v1 l0) (at v2 l2) (at p1 l0) (at p2 l0) (at p3 l2)))",
);

const IN_ORDER: &str = concat!(
    "(define (problem two-trucks) (:domain transport)",
    " (:objects l0 l1 l2 - location v1 v2 - vehicle p1 p2 p3 - package)",
    " (:htn :parameters () :ordered-subtasks (and (deliver p1 l1) (deliver p2 l1) (deliver p3 l1)))",
    " (:init (road l0 l1) (road l1 l0) (road l1 l2) (road l2 l1)",
    " (at v1 l0) (at v2 l2) (at p1 l0) (at p2 l0) (at p3 l2)))",
);

/// The tree and the plan that lie in examples/transport.
const TREE: &str = concat!(
    "==>\n",
    "0 pick-up v1 l0 p1\n",
    "1 pick-up v1 l0 p2\n",
    "2 pick-up v2 l2 p3\n",
    "3 drive v1 l0 l1\n",
    "4 drive v2 l2 l1\n",
    "5 drop v1 l1 p1\n",
    "6 drop v1 l1 p2\n",
    "7 drop v2 l1 p3\n",
    "root 8 10 12\n",
    "8 deliver p1 l1 -> m-deliver 9 0 14 5\n",
    "9 get-to v1 l0 -> m-there\n",
    "10 deliver p2 l1 -> m-deliver 11 1 17 6\n",
    "11 get-to v1 l0 -> m-there\n",
    "12 deliver p3 l1 -> m-deliver 13 2 15 7\n",
    "13 get-to v2 l2 -> m-there\n",
    "14 get-to v1 l1 -> m-via 3 16\n",
    "15 get-to v2 l1 -> m-via 4 18\n",
    "16 get-to v1 l1 -> m-there\n",
    "17 get-to v1 l1 -> m-there\n",
    "18 get-to v2 l1 -> m-there\n",
    "<==\n",
);

const PLAN: &str = concat!(
    "; slots 8\n",
    "(htn_start htn_s1 htn_s2 htn_s3)\n",
    "(htn_m_m-deliver htn_s2 htn_s4 htn_s5 htn_s6 v1 p1 l0 l1)\n",
    "(htn_m_m-there htn_s4 v1 l0)\n",
    "(htn_c_m-there htn_s4 v1 l0)\n",
    "(pick-up htn_s5 v1 l0 p1)\n",
    "(htn_m_m-deliver htn_s3 htn_s4 htn_s5 htn_s7 v1 p2 l0 l1)\n",
    "(htn_m_m-there htn_s4 v1 l0)\n",
    "(htn_c_m-there htn_s4 v1 l0)\n",
    "(pick-up htn_s5 v1 l0 p2)\n",
    "(htn_m_m-deliver htn_s1 htn_s4 htn_s5 htn_s8 v2 p3 l2 l1)\n",
    "(htn_m_m-there htn_s4 v2 l2)\n",
    "(htn_c_m-there htn_s4 v2 l2)\n",
    "(pick-up htn_s5 v2 l2 p3)\n",
    "(htn_m_m-via htn_s6 htn_s4 v1 l0 l1 l1)\n",
    "(drive htn_s4 v1 l0 l1)\n",
    "(htn_m_m-via htn_s8 htn_s4 v2 l2 l1 l1)\n",
    "(drive htn_s4 v2 l2 l1)\n",
    "(htn_m_m-there htn_s6 v1 l1)\n",
    "(htn_c_m-there htn_s6 v1 l1)\n",
    "(drop htn_s2 v1 l1 p1)\n",
    "(htn_m_m-there htn_s7 v1 l1)\n",
    "(htn_c_m-there htn_s7 v1 l1)\n",
    "(drop htn_s3 v1 l1 p2)\n",
    "(htn_m_m-there htn_s8 v2 l1)\n",
    "(htn_c_m-there htn_s8 v2 l1)\n",
    "(drop htn_s1 v2 l1 p3)\n",
);

/// A tree of the deliveries in order, and its steps with lowest slots, and with cells.
const TREE_IN_ORDER: &str = concat!(
    "==>\n",
    "0 pick-up v1 l0 p1\n",
    "1 drive v1 l0 l1\n",
    "2 drop v1 l1 p1\n",
    "3 drive v1 l1 l0\n",
    "4 pick-up v1 l0 p2\n",
    "5 drive v1 l0 l1\n",
    "6 drop v1 l1 p2\n",
    "7 pick-up v2 l2 p3\n",
    "8 drive v2 l2 l1\n",
    "9 drop v2 l1 p3\n",
    "root 10 14 19\n",
    "10 deliver p1 l1 -> m-deliver 11 0 12 2\n",
    "11 get-to v1 l0 -> m-there\n",
    "12 get-to v1 l1 -> m-via 1 13\n",
    "13 get-to v1 l1 -> m-there\n",
    "14 deliver p2 l1 -> m-deliver 15 4 17 6\n",
    "15 get-to v1 l0 -> m-via 3 16\n",
    "16 get-to v1 l0 -> m-there\n",
    "17 get-to v1 l1 -> m-via 5 18\n",
    "18 get-to v1 l1 -> m-there\n",
    "19 deliver p3 l1 -> m-deliver 20 7 21 9\n",
    "20 get-to v2 l2 -> m-there\n",
    "21 get-to v2 l1 -> m-via 8 22\n",
    "22 get-to v2 l1 -> m-there\n",
    "<==\n",
);

const PLAN_IN_ORDER: &str = concat!(
    "; slots 6\n",
    "(htn_start htn_s1 htn_s2 htn_s3)\n",
    "(htn_m_m-deliver htn_s2 htn_s4 htn_s5 htn_s6 v1 p1 l0 l1)\n",
    "(htn_m_m-there htn_s4 v1 l0)\n",
    "(htn_c_m-there htn_s4 v1 l0)\n",
    "(pick-up htn_s5 v1 l0 p1)\n",
    "(htn_m_m-via htn_s6 htn_s4 v1 l0 l1 l1)\n",
    "(drive htn_s4 v1 l0 l1)\n",
    "(htn_m_m-there htn_s6 v1 l1)\n",
    "(htn_c_m-there htn_s6 v1 l1)\n",
    "(drop htn_s2 v1 l1 p1)\n",
    "(htn_m_m-deliver htn_s3 htn_s2 htn_s4 htn_s5 v1 p2 l0 l1)\n",
    "(htn_m_m-via htn_s2 htn_s6 v1 l1 l0 l0)\n",
    "(drive htn_s6 v1 l1 l0)\n",
    "(htn_m_m-there htn_s2 v1 l0)\n",
    "(htn_c_m-there htn_s2 v1 l0)\n",
    "(pick-up htn_s4 v1 l0 p2)\n",
    "(htn_m_m-via htn_s5 htn_s2 v1 l0 l1 l1)\n",
    "(drive htn_s2 v1 l0 l1)\n",
    "(htn_m_m-there htn_s5 v1 l1)\n",
    "(htn_c_m-there htn_s5 v1 l1)\n",
    "(drop htn_s3 v1 l1 p2)\n",
    "(htn_m_m-deliver htn_s1 htn_s2 htn_s3 htn_s4 v2 p3 l2 l1)\n",
    "(htn_m_m-there htn_s2 v2 l2)\n",
    "(htn_c_m-there htn_s2 v2 l2)\n",
    "(pick-up htn_s3 v2 l2 p3)\n",
    "(htn_m_m-via htn_s4 htn_s2 v2 l2 l1 l1)\n",
    "(drive htn_s2 v2 l2 l1)\n",
    "(htn_m_m-there htn_s4 v2 l1)\n",
    "(htn_c_m-there htn_s4 v2 l1)\n",
    "(drop htn_s1 v2 l1 p3)\n",
);

const STACKED: &str = concat!(
    "; slots 6\n",
    "(htn_start htn_s1 htn_s2 htn_s3)\n",
    "(htn_m_m-deliver htn_s3 htn_s4 htn_s5 htn_s6 v1 p1 l0 l1)\n",
    "(htn_m_m-there htn_s6 v1 l0)\n",
    "(htn_c_m-there htn_s5 htn_s6 v1 l0)\n",
    "(pick-up htn_s4 htn_s5 v1 l0 p1)\n",
    "(htn_m_m-via htn_s4 htn_s5 v1 l0 l1 l1)\n",
    "(drive htn_s4 htn_s5 v1 l0 l1)\n",
    "(htn_m_m-there htn_s4 v1 l1)\n",
    "(htn_c_m-there htn_s3 htn_s4 v1 l1)\n",
    "(drop htn_s2 htn_s3 v1 l1 p1)\n",
    "(htn_m_m-deliver htn_s2 htn_s3 htn_s4 htn_s5 v1 p2 l0 l1)\n",
    "(htn_m_m-via htn_s5 htn_s6 v1 l1 l0 l0)\n",
    "(drive htn_s5 htn_s6 v1 l1 l0)\n",
    "(htn_m_m-there htn_s5 v1 l0)\n",
    "(htn_c_m-there htn_s4 htn_s5 v1 l0)\n",
    "(pick-up htn_s3 htn_s4 v1 l0 p2)\n",
    "(htn_m_m-via htn_s3 htn_s4 v1 l0 l1 l1)\n",
    "(drive htn_s3 htn_s4 v1 l0 l1)\n",
    "(htn_m_m-there htn_s3 v1 l1)\n",
    "(htn_c_m-there htn_s2 htn_s3 v1 l1)\n",
    "(drop htn_s1 htn_s2 v1 l1 p2)\n",
    "(htn_m_m-deliver htn_s1 htn_s2 htn_s3 htn_s4 v2 p3 l2 l1)\n",
    "(htn_m_m-there htn_s4 v2 l2)\n",
    "(htn_c_m-there htn_s3 htn_s4 v2 l2)\n",
    "(pick-up htn_s2 htn_s3 v2 l2 p3)\n",
    "(htn_m_m-via htn_s2 htn_s3 v2 l2 l1 l1)\n",
    "(drive htn_s2 htn_s3 v2 l2 l1)\n",
    "(htn_m_m-there htn_s2 v2 l1)\n",
    "(htn_c_m-there htn_s1 htn_s2 v2 l1)\n",
    "(drop htn_s0 htn_s1 v2 l1 p3)\n",
);

/// A circle: the problem, the hierarchical plan, its steps, and the options of the translation and of the way back.
#[derive(Clone, Copy)]
struct Circle {
    problem: &'static str,
    tree: &'static str,
    steps: &'static str,
    translated: &'static [&'static str],
    form: &'static [&'static str],
}

const CIRCLES: &[Circle] = &[
    Circle {
        problem: IN_ANY_ORDER,
        tree: TREE,
        steps: PLAN,
        translated: &["--bound", "8", "--slots", "first"],
        form: &["--bound", "8"],
    },
    Circle {
        problem: IN_ORDER,
        tree: TREE_IN_ORDER,
        steps: PLAN_IN_ORDER,
        translated: &["--slots", "first"],
        form: &[],
    },
    Circle {
        problem: IN_ORDER,
        tree: TREE_IN_ORDER,
        steps: STACKED,
        translated: &["--form", "stack"],
        form: &["--form", "stack"],
    },
];

/// The run of these words tells this text, where it is asked for, and does what it was asked.
fn tells(
    rt: &impl Abort,
    outside: &mut Outside,
    command: &[&str],
    options: &[&str],
    told: Option<&str>,
) -> Result<(), Memory> {
    let mut words = Vec::new(outside.alloc);
    for word in command {
        words.push(String::from_str(outside.alloc, word)?)?;
    }
    for word in options {
        words.push(String::from_str(outside.alloc, word)?)?;
    }
    outside.out = MemSink::new(outside.alloc, 3);
    let status = run(
        outside.alloc,
        words.as_slice(),
        &mut outside.files,
        &mut outside.out,
        &mut outside.err,
    );
    assert_eq!(rt; status, Status::Done);
    if let Some(told) = told {
        assert!(rt; outside.out.bytes() == told.as_bytes());
    }
    Ok(())
}

fn closes(rt: &impl Abort, alloc: Global, circle: &Circle) -> Result<(), Memory> {
    let mut outside = Outside::new(alloc);
    outside.files.add("d", DOMAIN.as_bytes())?;
    outside.files.add("p", circle.problem.as_bytes())?;
    outside.files.add("tree", circle.tree.as_bytes())?;
    outside.files.add("plan", circle.steps.as_bytes())?;
    let encode = &["encode", "d", "p", "tree"];
    let translate = &["translate", "d", "p", "od", "op"];
    let validate = &["validate", "od", "op", "plan"];
    let decode = &["decode", "d", "p", "plan"];
    tells(rt, &mut outside, encode, circle.form, Some(circle.steps))?;
    tells(rt, &mut outside, translate, circle.translated, None)?;
    tells(rt, &mut outside, validate, &[], Some("valid\n"))?;
    tells(rt, &mut outside, decode, circle.form, Some(circle.tree))
}

#[test]
fn each_circle_closes(rt: HostRuntime) -> Result<(), Fail> {
    for circle in CIRCLES {
        closes(&rt, rt.alloc(), circle)?;
    }
    Ok(())
}
