//! The smallest problem: one task, one method, one action. Its printed texts were made by two programs that share nothing with this
//! one.
use super::rows::{COSTS_DOMAIN, COSTS_PROBLEM};
use super::{BOUND, Before, Row, Source, TRANSLATE, UNWRITTEN, replay, replay_all};
use htn_cli::Status;
use std::alloc::Global;
use std::process::Abort;

pub(super) const DOMAIN: &str =
    "(define (domain d) (:task t :parameters ()) (:method m :parameters () :task (t) :subtasks (a)) (:action a :parameters ()))";

pub(super) const PROBLEM: &str = "(define (problem p) (:domain d) (:htn :subtasks (t)))";

pub(super) const ONE_SLOT_DOMAIN: &str = concat!(
    "(define (domain d)\n",
    " (:requirements :adl)\n",
    " (:types htn_slot - object htn_object - object)\n",
    " (:constants htn_s1 - htn_slot)\n",
    " (:predicates (htn_top ?htn_h - htn_slot) (htn_free ?htn_h - htn_slot) (htn_before ?htn_x - htn_slot ?htn_h - htn_slot) (htn_t_t ?htn_h - htn_slot) (htn_a_a ?htn_h - htn_slot))\n",
    " (:action htn_start :parameters (?htn_h - htn_slot) :precondition (and (htn_top ?htn_h) (forall (?htn_x - htn_slot) (not (htn_before ?htn_x ?htn_h)))) :effect (and (not (htn_top ?htn_h)) (htn_t_t ?htn_h)))\n",
    " (:action htn_m_m :parameters (?htn_h - htn_slot) :precondition (and (htn_t_t ?htn_h) (forall (?htn_x - htn_slot) (not (htn_before ?htn_x ?htn_h)))) :effect (and (not (htn_t_t ?htn_h)) (htn_a_a ?htn_h)))\n",
    " (:action a :parameters (?htn_h - htn_slot) :precondition (and (htn_a_a ?htn_h) (forall (?htn_x - htn_slot) (not (htn_before ?htn_x ?htn_h)))) :effect (and (not (htn_a_a ?htn_h)) (htn_free ?htn_h) (forall (?htn_x - htn_slot) (not (htn_before ?htn_h ?htn_x)))))\n",
    ")\n",
);

pub(super) const ONE_SLOT_PROBLEM: &str = concat!(
    "(define (problem p)\n",
    " (:domain d)\n",
    " (:objects)\n",
    " (:init (htn_top htn_s1))\n",
    " (:goal (and (forall (?htn_x - htn_slot) (htn_free ?htn_x))))\n",
    ")\n",
);

const ONE_SLOT_FLAT_DOMAIN: &str = concat!(
    "(define (domain d)\n",
    " (:requirements :adl)\n",
    " (:types htn_slot - object htn_object - object)\n",
    " (:constants htn_s1 - htn_slot)\n",
    " (:predicates (htn_top ?htn_h - htn_slot) (htn_free ?htn_h - htn_slot) (htn_before ?htn_x - htn_slot ?htn_h - htn_slot) (htn_t_t ?htn_h - htn_slot) (htn_a_a ?htn_h - htn_slot))\n",
    " (:action htn_start :parameters (?htn_h - htn_slot) :precondition (and (htn_top ?htn_h) (not (htn_before htn_s1 ?htn_h))) :effect (and (not (htn_top ?htn_h)) (htn_t_t ?htn_h)))\n",
    " (:action htn_m_m :parameters (?htn_h - htn_slot) :precondition (and (htn_t_t ?htn_h) (not (htn_before htn_s1 ?htn_h))) :effect (and (not (htn_t_t ?htn_h)) (htn_a_a ?htn_h)))\n",
    " (:action a :parameters (?htn_h - htn_slot) :precondition (and (htn_a_a ?htn_h) (not (htn_before htn_s1 ?htn_h))) :effect (and (not (htn_a_a ?htn_h)) (htn_free ?htn_h) (not (htn_before ?htn_h htn_s1))))\n",
    ")\n",
);

const ONE_SLOT_FLAT_PROBLEM: &str = concat!(
    "(define (problem p)\n",
    " (:domain d)\n",
    " (:objects)\n",
    " (:init (htn_top htn_s1))\n",
    " (:goal (and (htn_free htn_s1)))\n",
    ")\n",
);

const TWO_SLOTS_DOMAIN: &str = concat!(
    "(define (domain d)\n",
    " (:requirements :adl)\n",
    " (:types htn_slot - object htn_object - object)\n",
    " (:constants htn_s1 - htn_slot htn_s2 - htn_slot)\n",
    " (:predicates (htn_top ?htn_h - htn_slot) (htn_free ?htn_h - htn_slot) (htn_before ?htn_x - htn_slot ?htn_h - htn_slot) (htn_t_t ?htn_h - htn_slot) (htn_a_a ?htn_h - htn_slot))\n",
    " (:action htn_start :parameters (?htn_h - htn_slot) :precondition (and (htn_top ?htn_h) (forall (?htn_x - htn_slot) (not (htn_before ?htn_x ?htn_h)))) :effect (and (not (htn_top ?htn_h)) (htn_t_t ?htn_h)))\n",
    " (:action htn_m_m :parameters (?htn_h - htn_slot) :precondition (and (htn_t_t ?htn_h) (forall (?htn_x - htn_slot) (not (htn_before ?htn_x ?htn_h)))) :effect (and (not (htn_t_t ?htn_h)) (htn_a_a ?htn_h)))\n",
    " (:action a :parameters (?htn_h - htn_slot) :precondition (and (htn_a_a ?htn_h) (forall (?htn_x - htn_slot) (not (htn_before ?htn_x ?htn_h)))) :effect (and (not (htn_a_a ?htn_h)) (htn_free ?htn_h) (forall (?htn_x - htn_slot) (not (htn_before ?htn_h ?htn_x)))))\n",
    ")\n",
);

const TWO_SLOTS_PROBLEM: &str = concat!(
    "(define (problem p)\n",
    " (:domain d)\n",
    " (:objects)\n",
    " (:init (htn_top htn_s1) (htn_free htn_s2))\n",
    " (:goal (and (forall (?htn_x - htn_slot) (htn_free ?htn_x))))\n",
    ")\n",
);

const TWO_SLOTS_FLAT_DOMAIN: &str = concat!(
    "(define (domain d)\n",
    " (:requirements :adl)\n",
    " (:types htn_slot - object htn_object - object)\n",
    " (:constants htn_s1 - htn_slot htn_s2 - htn_slot)\n",
    " (:predicates (htn_top ?htn_h - htn_slot) (htn_free ?htn_h - htn_slot) (htn_before ?htn_x - htn_slot ?htn_h - htn_slot) (htn_t_t ?htn_h - htn_slot) (htn_a_a ?htn_h - htn_slot))\n",
    " (:action htn_start :parameters (?htn_h - htn_slot) :precondition (and (htn_top ?htn_h) (not (htn_before htn_s1 ?htn_h)) (not (htn_before htn_s2 ?htn_h))) :effect (and (not (htn_top ?htn_h)) (htn_t_t ?htn_h)))\n",
    " (:action htn_m_m :parameters (?htn_h - htn_slot) :precondition (and (htn_t_t ?htn_h) (not (htn_before htn_s1 ?htn_h)) (not (htn_before htn_s2 ?htn_h))) :effect (and (not (htn_t_t ?htn_h)) (htn_a_a ?htn_h)))\n",
    " (:action a :parameters (?htn_h - htn_slot) :precondition (and (htn_a_a ?htn_h) (not (htn_before htn_s1 ?htn_h)) (not (htn_before htn_s2 ?htn_h))) :effect (and (not (htn_a_a ?htn_h)) (htn_free ?htn_h) (not (htn_before ?htn_h htn_s1)) (not (htn_before ?htn_h htn_s2))))\n",
    ")\n",
);

const TWO_SLOTS_FLAT_PROBLEM: &str = concat!(
    "(define (problem p)\n",
    " (:domain d)\n",
    " (:objects)\n",
    " (:init (htn_top htn_s1) (htn_free htn_s2))\n",
    " (:goal (and (htn_free htn_s1) (htn_free htn_s2)))\n",
    ")\n",
);

/// With an empty initial network, written out by hand: the top task frees its slot. The problem is that of one slot.
const EMPTY_NETWORK_DOMAIN: &str = concat!(
    "(define (domain d)\n",
    " (:requirements :adl)\n",
    " (:types htn_slot - object htn_object - object)\n",
    " (:constants htn_s1 - htn_slot)\n",
    " (:predicates (htn_top ?htn_h - htn_slot) (htn_free ?htn_h - htn_slot) (htn_before ?htn_x - htn_slot ?htn_h - htn_slot) (htn_t_t ?htn_h - htn_slot) (htn_a_a ?htn_h - htn_slot))\n",
    " (:action htn_start :parameters (?htn_h - htn_slot) :precondition (and (htn_top ?htn_h) (forall (?htn_x - htn_slot) (not (htn_before ?htn_x ?htn_h)))) :effect (and (not (htn_top ?htn_h)) (htn_free ?htn_h) (forall (?htn_x - htn_slot) (not (htn_before ?htn_h ?htn_x)))))\n",
    " (:action htn_m_m :parameters (?htn_h - htn_slot) :precondition (and (htn_t_t ?htn_h) (forall (?htn_x - htn_slot) (not (htn_before ?htn_x ?htn_h)))) :effect (and (not (htn_t_t ?htn_h)) (htn_a_a ?htn_h)))\n",
    " (:action a :parameters (?htn_h - htn_slot) :precondition (and (htn_a_a ?htn_h) (forall (?htn_x - htn_slot) (not (htn_before ?htn_x ?htn_h)))) :effect (and (not (htn_a_a ?htn_h)) (htn_free ?htn_h) (forall (?htn_x - htn_slot) (not (htn_before ?htn_h ?htn_x)))))\n",
    ")\n",
);

/// Options, the line and the two texts that are printed with them.
#[derive(Clone, Copy)]
struct Printed {
    options: &'static [&'static str],
    told: &'static str,
    held: &'static [(&'static str, Option<&'static str>)],
}

/// Without a bound the printed texts are those of the computed one, which is 1 here.
const PRINTED: &[Printed] = &[
    Printed {
        options: &["--bound", "1"],
        told: "slots 1\n",
        held: &[
            ("od.pddl", Some(ONE_SLOT_DOMAIN)),
            ("op.pddl", Some(ONE_SLOT_PROBLEM)),
        ],
    },
    Printed {
        options: &[],
        told: "slots 1\n",
        held: &[
            ("od.pddl", Some(ONE_SLOT_DOMAIN)),
            ("op.pddl", Some(ONE_SLOT_PROBLEM)),
        ],
    },
    Printed {
        options: &["--style", "flat", "--bound", "01"],
        told: "slots 1\n",
        held: &[
            ("od.pddl", Some(ONE_SLOT_FLAT_DOMAIN)),
            ("op.pddl", Some(ONE_SLOT_FLAT_PROBLEM)),
        ],
    },
    Printed {
        options: &["--bound", "2"],
        told: "slots 2\n",
        held: &[
            ("od.pddl", Some(TWO_SLOTS_DOMAIN)),
            ("op.pddl", Some(TWO_SLOTS_PROBLEM)),
        ],
    },
    Printed {
        options: &["--style", "flat", "--bound", "2"],
        told: "slots 2\n",
        held: &[
            ("od.pddl", Some(TWO_SLOTS_FLAT_DOMAIN)),
            ("op.pddl", Some(TWO_SLOTS_FLAT_PROBLEM)),
        ],
    },
];

/// Modes of checks. No check is made here, so each prints the same.
const MODES: &[&[&str]] = &[&[], &["--checks", "leaf"], &["--checks", "atonce"]];

fn prints(rt: &impl Abort, alloc: Global, printed: &Printed, mode: &'static [&'static str]) {
    replay(
        rt,
        alloc,
        &Row {
            before: Before::Both(Source::Text(DOMAIN), Source::Text(PROBLEM)),
            command: TRANSLATE,
            options: printed.options,
            more: mode,
            status: Status::Done,
            out: printed.told,
            err: "",
            held: printed.held,
        },
    );
}

#[test]
fn the_smallest_problem(rt: HostRuntime) {
    for printed in PRINTED {
        for mode in MODES {
            prints(&rt, rt.alloc(), printed, mode);
        }
    }
}

/// An empty network; costs, which are dropped; and a bound alone.
const OTHERS: &[Row] = &[
    Row {
        before: Before::Both(
            Source::Text(DOMAIN),
            Source::Text("(define (problem p) (:domain d) (:htn :subtasks ()))"),
        ),
        command: TRANSLATE,
        options: &["--bound", "1"],
        more: &[],
        status: Status::Done,
        out: "slots 1\n",
        err: "",
        held: &[
            ("od.pddl", Some(EMPTY_NETWORK_DOMAIN)),
            ("op.pddl", Some(ONE_SLOT_PROBLEM)),
        ],
    },
    Row {
        before: Before::Both(Source::Text(COSTS_DOMAIN), Source::Text(COSTS_PROBLEM)),
        command: TRANSLATE,
        options: &["--bound", "1"],
        more: &[],
        status: Status::Done,
        out: "slots 1\n",
        err: "",
        held: &[
            ("od.pddl", Some(ONE_SLOT_DOMAIN)),
            ("op.pddl", Some(ONE_SLOT_PROBLEM)),
        ],
    },
    Row {
        before: Before::Both(Source::Text(DOMAIN), Source::Text(PROBLEM)),
        command: BOUND,
        options: &["--checks", "atonce"],
        more: &[],
        status: Status::Done,
        out: "1\n",
        err: "",
        held: UNWRITTEN,
    },
];

#[test]
fn other_runs(rt: HostRuntime) {
    replay_all(&rt, rt.alloc(), OTHERS);
}

/// A method of three parameters over 101 objects: 1,030,301 ground methods.
pub(super) const CUBE_DOMAIN: &str =
    "(define (domain d) (:task t :parameters ()) (:method m :parameters (?x ?y ?z) :task (t) :subtasks ()))";

pub(super) const CUBE_PROBLEM: &str =
    "(define (problem p) (:domain d) (:htn :subtasks (t)) (:objects
o0 o1 o2 o3 o4 o5 o6 o7 o8 o9 o10 o11 o12 o13 o14 o15 o16 o17 o18 o19 o20 o21 o22 o23 o24
o25 o26 o27 o28 o29 o30 o31 o32 o33 o34 o35 o36 o37 o38 o39 o40 o41 o42 o43 o44 o45 o46
o47 o48 o49 o50 o51 o52 o53 o54 o55 o56 o57 o58 o59 o60 o61 o62 o63 o64 o65 o66 o67 o68
o69 o70 o71 o72 o73 o74 o75 o76 o77 o78 o79 o80 o81 o82 o83 o84 o85 o86 o87 o88 o89 o90
o91 o92 o93 o94 o95 o96 o97 o98 o99 o100))";
