//! What is left of small problems, worked out by hand from the rules for what is live and kept.
use super::texts::{DOMAIN, ONE_SLOT_DOMAIN, ONE_SLOT_PROBLEM, PROBLEM};
use super::{Before, Row, Source, TRANSLATE, UNWRITTEN, replay_all};
use htn_cli::Status;

const PRUNE: &[&str] = &["prune", "d.hddl", "p.hddl", "od.pddl", "op.pddl"];

/// The smallest domain with a task that has no end, and a method that comes to it.
const ENDLESS: &str =
    "(define (domain d) (:task t :parameters ()) (:task u :parameters ()) (:method m :parameters () :task (t) :subtasks (a)) (:method mu :parameters () :task (u) :subtasks (u)) (:method m2 :parameters () :task (t) :subtasks (u)) (:action a :parameters ()))";

const ENDLESS_PROBLEM: &str = "(define (problem p) (:domain d) (:htn :subtasks (u)))";

const SMALLEST: &str = concat!(
    "(define (domain d)\n",
    " (:requirements :adl :typing :hierarchy :method-preconditions)\n",
    " (:types)\n",
    " (:constants)\n",
    " (:predicates)\n",
    " (:task t :parameters ())\n",
    " (:method m :parameters () :task (t) :precondition (and) :subtasks (and (s0 (a))) :ordering (and) :constraints (and))\n",
    " (:action a :parameters () :precondition (and) :effect (and))\n",
    ")\n",
);

const SMALLEST_PROBLEM: &str = concat!(
    "(define (problem p)\n",
    " (:domain d)\n",
    " (:objects)\n",
    " (:htn :parameters () :subtasks (and (s0 (t))) :ordering (and) :constraints (and))\n",
    " (:init)\n",
    " (:goal (and))\n",
    ")\n",
);

/// An action whose condition an action adds that is never done.
const UNREACHED: &str =
    "(define (domain d) (:predicates (p)) (:action a :parameters () :precondition (p)) (:action b :parameters () :effect (p)))";

const UNREACHED_PROBLEM: &str = "(define (problem p) (:domain d) (:htn :subtasks (a)))";

const WITHOUT_IT: &str = concat!(
    "(define (domain d)\n",
    " (:requirements :adl :typing :hierarchy :method-preconditions)\n",
    " (:types)\n",
    " (:constants)\n",
    " (:predicates (p))\n",
    " (:action a :parameters () :precondition (p) :effect (and))\n",
    ")\n",
);

const WITHOUT_IT_PROBLEM: &str = concat!(
    "(define (problem p)\n",
    " (:domain d)\n",
    " (:objects)\n",
    " (:htn :parameters () :subtasks (and (s0 (a))) :ordering (and) :constraints (and))\n",
    " (:init)\n",
    " (:goal (and))\n",
    ")\n",
);

const fn pruned(
    domain: &'static str,
    problem: &'static str,
    out: &'static str,
    held: &'static [(&'static str, Option<&'static str>)],
) -> Row {
    Row {
        before: Before::Both(Source::Text(domain), Source::Text(problem)),
        command: PRUNE,
        options: &[],
        more: &[],
        status: Status::Done,
        out,
        err: "",
        held,
    }
}

const fn unsolved(domain: &'static str, problem: &'static str) -> Row {
    Row {
        before: Before::Both(Source::Text(domain), Source::Text(problem)),
        command: PRUNE,
        options: &[],
        more: &[],
        status: Status::Finding,
        out: "",
        err: "no solution\n",
        held: UNWRITTEN,
    }
}

const THE_SMALLEST: &[(&str, Option<&str>)] = &[
    ("od.pddl", Some(SMALLEST)),
    ("op.pddl", Some(SMALLEST_PROBLEM)),
];

const LEFT: &[(&str, Option<&str>)] = &[
    ("od.pddl", Some(WITHOUT_IT)),
    ("op.pddl", Some(WITHOUT_IT_PROBLEM)),
];

const TRANSLATED: &[(&str, Option<&str>)] = &[
    ("od.pddl", Some(ONE_SLOT_DOMAIN)),
    ("op.pddl", Some(ONE_SLOT_PROBLEM)),
];

#[test]
fn what_is_left(rt: HostRuntime) {
    replay_all(
        &rt,
        rt.alloc(),
        &[
            pruned(
                ENDLESS,
                PROBLEM,
                "tasks 1 methods 1 actions 1\n",
                THE_SMALLEST,
            ),
            pruned(
                DOMAIN,
                PROBLEM,
                "tasks 1 methods 1 actions 1\n",
                THE_SMALLEST,
            ),
            pruned(
                SMALLEST,
                SMALLEST_PROBLEM,
                "tasks 1 methods 1 actions 1\n",
                THE_SMALLEST,
            ),
            unsolved(ENDLESS, ENDLESS_PROBLEM),
        ],
    );
}

/// Pruned once more, less may be left.
#[test]
fn what_is_left_of_it(rt: HostRuntime) {
    replay_all(
        &rt,
        rt.alloc(),
        &[
            pruned(
                UNREACHED,
                UNREACHED_PROBLEM,
                "tasks 0 methods 0 actions 1\n",
                LEFT,
            ),
            unsolved(WITHOUT_IT, WITHOUT_IT_PROBLEM),
        ],
    );
}

/// What is left of the domain with the endless task is translated as the smallest problem is.
#[test]
fn what_is_left_is_translated(rt: HostRuntime) {
    replay_all(
        &rt,
        rt.alloc(),
        &[Row {
            before: Before::Both(Source::Text(SMALLEST), Source::Text(SMALLEST_PROBLEM)),
            command: TRANSLATE,
            options: &["--bound", "1"],
            more: &[],
            status: Status::Done,
            out: "slots 1\n",
            err: "",
            held: TRANSLATED,
        }],
    );
}
