//! Lists that are plans, or none, of two PDDL texts. Each line was found by hand, from the rules for plans and for faults.
use super::texts::{ONE_SLOT_DOMAIN, ONE_SLOT_PROBLEM};
use super::{Before, Row, Source, VALIDATE, replay};
use htn_cli::Status;
use std::alloc::Global;
use std::process::Abort;

const PLAN: &str = "(htn_start htn_s1) (htn_m_m htn_s1) (a htn_s1)";

/// A list of steps for the printed texts of the smallest problem: the run ends with this status and this line.
#[derive(Clone, Copy)]
struct Listed {
    plan: &'static str,
    status: Status,
    err: &'static str,
}

const OF_THE_SMALLEST: &[Listed] = &[
    Listed {
        plan: PLAN,
        status: Status::Done,
        err: "",
    },
    Listed {
        plan: "; cost = 3 (unit cost)\n0: (HTN_START HTN_S1)\n1: (HTN_M_M HTN_S1)\n2: (A HTN_S1)\n",
        status: Status::Done,
        err: "",
    },
    Listed {
        plan: "(htn_start htn_s1) (htn_m_m htn_s1)",
        status: Status::Finding,
        err: "not a plan: step 3 GoalFalse\n",
    },
    Listed {
        plan: "(and or)",
        status: Status::Finding,
        err: "not a plan: step 1 UnknownAction\n",
    },
    Listed {
        plan: "(htn_start)",
        status: Status::Finding,
        err: "not a plan: step 1 Arguments\n",
    },
    Listed {
        plan: "(htn_start htn_s2)",
        status: Status::Finding,
        err: "not a plan: step 1 Arguments\n",
    },
    Listed {
        plan: "(htn_start htn_s1 htn_s1)",
        status: Status::Finding,
        err: "not a plan: step 1 Arguments\n",
    },
    Listed {
        plan: "(htn_start htn_s1) (a htn_s1) (b)",
        status: Status::Finding,
        err: "not a plan: step 2 Condition\n",
    },
];

/// The same for two texts of its own.
#[derive(Clone, Copy)]
struct Judged {
    domain: &'static str,
    problem: &'static str,
    plan: &'static str,
    status: Status,
    err: &'static str,
}

const COSTS: &str =
    "(define (domain d) (:functions (total-cost)) (:action a :parameters () :effect (increase (total-cost) 1)))";

const NOTHING: &str = "(define (problem p))";

const TYPED: &str =
    "(define (domain d) (:types red - block) (:constants b - block r - red) (:predicates (seen ?x)) (:action paint :parameters (?r - red) :precondition (forall (?x - object) (seen ?x)) :effect (not (seen ?r))))";

const SEEN: &str = "(define (problem p) (:init (seen b) (seen r)) (:goal (not (seen r))))";

/// All objects and those of a type; what is dropped, and a domain's name, which isn't compared; and faults: the domain's first, then
/// the problem's, then the plan's.
const JUDGED: &[Judged] = &[
    Judged {
        domain: TYPED,
        problem: SEEN,
        plan: "(paint r)",
        status: Status::Done,
        err: "",
    },
    Judged {
        domain: TYPED,
        problem: SEEN,
        plan: "(paint b)",
        status: Status::Finding,
        err: "not a plan: step 1 Arguments\n",
    },
    Judged {
        domain: TYPED,
        problem: SEEN,
        plan: "(paint r) (paint r)",
        status: Status::Finding,
        err: "not a plan: step 2 Condition\n",
    },
    Judged {
        domain: COSTS,
        problem: "(define (problem p) (:domain other) (:metric minimize (total-cost)))",
        plan: "(a)",
        status: Status::Done,
        err: "",
    },
    Judged {
        domain: COSTS,
        problem: NOTHING,
        plan: "1: (A ; (b) ?c\n)",
        status: Status::Done,
        err: "",
    },
    Judged {
        domain: COSTS,
        problem: NOTHING,
        plan: "(b) (a ?b)",
        status: Status::TextFault,
        err: "plan:7: fault 8 BadForm\n",
    },
    Judged {
        domain: "(define (domain d) (:task t :parameters ()))",
        problem: NOTHING,
        plan: "(a)",
        status: Status::TextFault,
        err: "pd:20: fault 6 UnknownSection\n",
    },
    Judged {
        domain: "(define (domain d) (:constants c))",
        problem: "(define (problem p) (:objects c))",
        plan: "(",
        status: Status::TextFault,
        err: "pp:30: fault 10 DuplicateName\n",
    },
    Judged {
        domain: COSTS,
        problem: "(define (problem p) (:htn))",
        plan: "(",
        status: Status::TextFault,
        err: "pp:21: fault 6 UnknownSection\n",
    },
    Judged {
        domain: COSTS,
        problem: NOTHING,
        plan: "(a",
        status: Status::TextFault,
        err: "plan:0: fault 2 UnclosedParen\n",
    },
    Judged {
        domain: COSTS,
        problem: NOTHING,
        plan: "(a) 3:",
        status: Status::TextFault,
        err: "plan:4: fault 8 BadForm\n",
    },
    Judged {
        domain: COSTS,
        problem: NOTHING,
        plan: "1: 2: (a)",
        status: Status::TextFault,
        err: "plan:3: fault 8 BadForm\n",
    },
    Judged {
        domain: COSTS,
        problem: NOTHING,
        plan: "()",
        status: Status::TextFault,
        err: "plan:1: fault 8 BadForm\n",
    },
    Judged {
        domain: COSTS,
        problem: NOTHING,
        plan: "(a (b))",
        status: Status::TextFault,
        err: "plan:3: fault 8 BadForm\n",
    },
    Judged {
        domain: COSTS,
        problem: NOTHING,
        plan: "(a ?b)",
        status: Status::TextFault,
        err: "plan:3: fault 8 BadForm\n",
    },
    Judged {
        domain: COSTS,
        problem: NOTHING,
        plan: "a",
        status: Status::TextFault,
        err: "plan:0: fault 8 BadForm\n",
    },
    Judged {
        domain: COSTS,
        problem: NOTHING,
        plan: "(a) \"",
        status: Status::TextFault,
        err: "plan:4: fault 1 BadByte\n",
    },
    Judged {
        domain: COSTS,
        problem: NOTHING,
        plan: "(a))",
        status: Status::TextFault,
        err: "plan:3: fault 3 StrayClose\n",
    },
];

/// A validation ends with this status and this line.
pub(super) fn ends(
    rt: &impl Abort,
    alloc: Global,
    before: Before,
    status: Status,
    err: &'static str,
) {
    let out = match status {
        Status::Done => "valid\n",
        _ => "",
    };
    replay(
        rt,
        alloc,
        &Row {
            before,
            command: VALIDATE,
            options: &[],
            more: &[],
            status,
            out,
            err,
            held: &[],
        },
    );
}

#[test]
fn lists_for_the_smallest_problem(rt: HostRuntime) {
    for row in OF_THE_SMALLEST {
        let before = Before::Plan(
            Source::Text(ONE_SLOT_DOMAIN),
            Source::Text(ONE_SLOT_PROBLEM),
            Source::Text(row.plan),
        );
        ends(&rt, rt.alloc(), before, row.status, row.err);
    }
}

#[test]
fn lists_for_other_texts(rt: HostRuntime) {
    for row in JUDGED {
        let before = Before::Plan(
            Source::Text(row.domain),
            Source::Text(row.problem),
            Source::Text(row.plan),
        );
        ends(&rt, rt.alloc(), before, row.status, row.err);
    }
}

/// One step more than there may be.
#[test]
fn too_many_steps(rt: HostRuntime) {
    let before = Before::Plan(
        Source::Text(COSTS),
        Source::Text(NOTHING),
        Source::Times(&[("(a)", 1_000_001)]),
    );
    let line = "limit steps 1000001\n";
    ends(&rt, rt.alloc(), before, Status::Limit, line);
}
