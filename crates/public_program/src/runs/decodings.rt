//! Plans of the smallest problem and long plans, decoded: by hand. What two other programs made of random problems is in `plan_rows`.
use super::texts::{DOMAIN, PROBLEM};
use super::{Before, DECODE, Row, Source, UNWRITTEN, replay};
use htn_cli::Status;
use std::alloc::Global;
use std::process::Abort;

/// A plan of two texts: the run ends with this status and these lines.
#[derive(Clone, Copy)]
struct Spelled {
    domain: &'static str,
    problem: &'static str,
    plan: Source,
    options: &'static [&'static str],
    status: Status,
    out: &'static str,
    err: &'static str,
}

const TREE: &str = "==>\n0 a\nroot 1\n1 t -> m 0\n<==\n";

const PLAN: &str = "(htn_start htn_s1) (htn_m_m htn_s1) (a htn_s1)";

/// The smallest problem, by hand.
const SMALLEST: &[Spelled] = &[
    Spelled {
        domain: DOMAIN,
        problem: PROBLEM,
        plan: Source::Text(PLAN),
        options: &[],
        status: Status::Done,
        out: TREE,
        err: "",
    },
    Spelled {
        domain: DOMAIN,
        problem: PROBLEM,
        plan: Source::Text("0: (HTN_START HTN_S1)\n1: (HTN_M_M HTN_S1) ; m\n2: (A HTN_S1)"),
        options: &["--bound", "65536", "--checks", "atonce"],
        status: Status::Done,
        out: TREE,
        err: "",
    },
    Spelled {
        domain: DOMAIN,
        problem: PROBLEM,
        plan: Source::Text("(htn_start htn_s1)"),
        options: &[],
        status: Status::Finding,
        out: "",
        err: "not a plan: step 2 Unfinished\n",
    },
    Spelled {
        domain: DOMAIN,
        problem: PROBLEM,
        plan: Source::Text(PLAN),
        options: &["--bound", "65537"],
        status: Status::Limit,
        out: "",
        err: "limit slots 65537\n",
    },
];

fn all_told(rt: &impl Abort, alloc: Global, rows: &[Spelled]) {
    for row in rows {
        replay(
            rt,
            alloc,
            &Row {
                before: Before::Spelled(
                    Source::Text(row.domain),
                    Source::Text(row.problem),
                    row.plan,
                ),
                command: DECODE,
                options: row.options,
                more: &[],
                status: row.status,
                out: row.out,
                err: row.err,
                held: UNWRITTEN,
            },
        );
    }
}

#[test]
fn smallest_problem(rt: HostRuntime) {
    all_told(&rt, rt.alloc(), SMALLEST);
}

pub(super) const USES: &str =
    "(define (domain d) (:task t :parameters ()) (:method m :parameters () :task (t) :ordered-subtasks (and (a) (t))) (:method e :parameters () :task (t) :subtasks ()) (:action a :parameters ()))";

/// A method that calls its task last is used 100,000 times, and the task is then left pending; and there are too many steps.
const LONG: &[Spelled] = &[
    Spelled {
        domain: USES,
        problem: PROBLEM,
        plan: Source::Times(&[
            ("(htn_start htn_s1)", 1),
            ("(htn_m_m htn_s1 htn_s2)(a htn_s2)", 100_000),
        ]),
        options: &[],
        status: Status::Finding,
        out: "",
        err: "not a plan: step 200002 Unfinished\n",
    },
    Spelled {
        domain: USES,
        problem: PROBLEM,
        plan: Source::Times(&[("(a)", 1_000_001)]),
        options: &[],
        status: Status::Limit,
        out: "",
        err: "limit steps 1000001\n",
    },
];

#[test]
fn long_plans(rt: HostRuntime) {
    all_told(&rt, rt.alloc(), LONG);
}
