//! A problem of two objects, `a - box` and `b - thing`: at first `a` is red and `b` is blue. Truth of goals, the states after
//! effects, and plans. Each answer was worked out by hand.
use super::validations::ends;
use super::{Before, Source};
use htn_cli::Status;
use std::alloc::Global;
use std::process::Abort;

/// The domain's beginning. Box and bag are parts of thing, and no object is a bag.
const COLOURS: &str =
    "(define (domain d) (:types thing - object box bag - thing) (:constants a - box b - thing) (:predicates (red ?x) (blue ?x))";

fn ends_coloured(
    rt: &impl Abort,
    alloc: Global,
    domain: Source,
    goal: &'static str,
    plan: &'static str,
    err: &'static str,
) {
    let problem = Source::Between(
        "(define (problem p) (:init (red a) (blue b)) (:goal ",
        goal,
        "))",
    );
    let status = if err.is_empty() {
        Status::Done
    } else {
        Status::Finding
    };
    let before = Before::Plan(domain, problem, Source::Text(plan));
    ends(rt, alloc, before, status, err);
}

/// The line for a goal that is true or not behind the steps before this one.
fn line(truth: bool, line: &'static str) -> &'static str {
    if truth { "" } else { line }
}

/// Goals, and whether they are true at first.
const TRUTHS: &[(&str, bool)] = &[
    ("(not (= a b))", true),
    ("(not (= a a))", false),
    ("(and (= a b) (= a b))", false),
    ("(and (= a b) (= a a))", false),
    ("(and (= a a) (= a b))", false),
    ("(and (= a a) (= a a))", true),
    ("(or (= a b) (= a b))", false),
    ("(or (= a b) (= a a))", true),
    ("(or (= a a) (= a b))", true),
    ("(or (= a a) (= a a))", true),
    ("(imply (= a b) (= a b))", true),
    ("(imply (= a b) (= a a))", true),
    ("(imply (= a a) (= a b))", false),
    ("(imply (= a a) (= a a))", true),
    ("(and)", true),
    ("(or)", false),
    // Of boxes `a` alone, which is red; of things `a` and `b`; of bags none.
    ("(forall (?x - box) (red ?x))", true),
    ("(exists (?x - box) (red ?x))", true),
    ("(forall (?x - box) (blue ?x))", false),
    ("(exists (?x - box) (blue ?x))", false),
    ("(forall (?x - thing) (red ?x))", false),
    ("(exists (?x - thing) (red ?x))", true),
    ("(forall (?x - thing) (blue ?x))", false),
    ("(exists (?x - thing) (blue ?x))", true),
    ("(forall (?x - bag) (red ?x))", true),
    ("(exists (?x - bag) (red ?x))", false),
];

#[test]
fn truths(rt: HostRuntime) {
    for (goal, truth) in TRUTHS {
        let domain = Source::Between(COLOURS, ")", "");
        let err = line(*truth, "not a plan: step 1 GoalFalse\n");
        ends_coloured(&rt, rt.alloc(), domain, goal, "", err);
    }
}

/// The domain's beginning, up to the effect of an action without parameters.
const PAINTED: &str =
    "(define (domain d) (:types thing - object box bag - thing) (:constants a - box b - thing) (:predicates (red ?x) (blue ?x)) (:action paint :parameters () :effect ";

/// Effects, and goals that are true or not after them. An add wins over a delete, `when` is tested in the old state, and
/// `forall` is of each object of the type.
const EFFECTS: &[(&str, &str, bool)] = &[
    ("(and (and) (and))", "(red a)", true),
    ("(and (and) (and))", "(red b)", false),
    ("(and (and (red b)) (and))", "(red b)", true),
    ("(and (and (not (red a))) (and))", "(red a)", false),
    ("(and (and (not (red a))) (and))", "(blue b)", true),
    ("(and (and (red b) (not (red b))) (and))", "(red b)", true),
    ("(and (and (not (red a)) (red a)) (and))", "(red a)", true),
    (
        "(and (and) (when (red a) (and (blue a))))",
        "(blue a)",
        true,
    ),
    (
        "(and (and) (when (red b) (and (blue a))))",
        "(blue a)",
        false,
    ),
    (
        "(and (and (not (red a))) (when (red a) (and (blue a))))",
        "(blue a)",
        true,
    ),
    (
        "(and (and (red b)) (when (red b) (and (blue a))))",
        "(blue a)",
        false,
    ),
    (
        "(and (and) (forall (?x - thing) (and (red ?x))))",
        "(red b)",
        true,
    ),
    (
        "(and (and) (forall (?x - thing) (and (not (red ?x)))))",
        "(red a)",
        false,
    ),
    (
        "(and (and) (forall (?x - thing) (and (not (blue ?x)))))",
        "(blue b)",
        false,
    ),
    (
        "(and (and) (forall (?x - box) (and (blue ?x))))",
        "(blue a)",
        true,
    ),
    (
        "(and (and) (forall (?x - box) (and (not (blue ?x)))))",
        "(blue b)",
        true,
    ),
    (
        "(and (and) (forall (?x - bag) (and (not (red ?x)))))",
        "(red a)",
        true,
    ),
];

#[test]
fn effects(rt: HostRuntime) {
    for (effect, goal, truth) in EFFECTS {
        let domain = Source::Between(PAINTED, effect, "))");
        let err = line(*truth, "not a plan: step 2 GoalFalse\n");
        ends_coloured(&rt, rt.alloc(), domain, goal, "(paint)", err);
    }
}

/// A thing is painted red and no longer blue, where it was not red or was blue. A red box is washed, and then nothing is red. A
/// thing is marked blue where it is red, and some box must be red.
const PAINTING: &str = concat!(
    "(:action paint :parameters (?x - thing) :precondition (imply (red ?x) (blue ?x)) :effect (and (red ?x) (not (blue ?x))))",
    "(:action wash :parameters (?x - box) :precondition (red ?x) :effect (and (and) (forall (?y - thing) (and (not (red ?y))))))",
    "(:action mark :parameters (?x - thing) :precondition (exists (?y - box) (red ?y)) :effect (and (and) (when (red ?x) (and (blue ?x))))))",
);

/// Lists of steps until `a` is blue, and why they are no plans. Where two causes are there, the first of action, arguments and
/// condition is told: `b` is no box and not red.
const PLANS: &[(&str, &str)] = &[
    ("(mark a)", ""),
    ("(mark b) (mark a)", ""),
    ("(wash a) (paint a) (mark a)", ""),
    ("", "not a plan: step 1 GoalFalse\n"),
    ("(wash a)", "not a plan: step 2 GoalFalse\n"),
    ("(mark a) (paint a)", "not a plan: step 3 GoalFalse\n"),
    ("(paint a)", "not a plan: step 1 Condition\n"),
    (
        "(mark b) (wash a) (mark a)",
        "not a plan: step 3 Condition\n",
    ),
    (
        "(wash a) (paint b) (mark b)",
        "not a plan: step 3 Condition\n",
    ),
    ("(dry a)", "not a plan: step 1 UnknownAction\n"),
    ("(a a)", "not a plan: step 1 UnknownAction\n"),
    ("(dry c)", "not a plan: step 1 UnknownAction\n"),
    ("(paint)", "not a plan: step 1 Arguments\n"),
    ("(paint b b)", "not a plan: step 1 Arguments\n"),
    ("(paint c)", "not a plan: step 1 Arguments\n"),
    ("(paint paint)", "not a plan: step 1 Arguments\n"),
    ("(wash b)", "not a plan: step 1 Arguments\n"),
];

#[test]
fn plans(rt: HostRuntime) {
    for (plan, err) in PLANS {
        let domain = Source::Between(COLOURS, PAINTING, "");
        ends_coloured(&rt, rt.alloc(), domain, "(blue a)", plan, err);
    }
}
