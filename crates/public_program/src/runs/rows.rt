//! Texts as they are refused or bounded. Each line was found by hand, from the rules for faults and bounds.
use super::Source;
use super::texts::{DOMAIN, PROBLEM};
use htn_cli::Status;

/// Two texts; `translate` without options and `bound` end with this status and this line.
#[derive(Clone, Copy)]
pub(super) struct Refused {
    pub(super) domain: Source,
    pub(super) problem: Source,
    pub(super) status: Status,
    pub(super) line: &'static str,
}

const RESERVED: &str = "(define (domain d) (:action when :parameters ()))";

const TWICE: &str = "(define (domain d) (:task t :parameters ()) (:action t :parameters ()))";

pub(super) const REFUSED: &[Refused] = &[
    // tokens, forms, names
    Refused {
        domain: Source::Text(RESERVED),
        problem: Source::Text(PROBLEM),
        status: Status::TextFault,
        line: "d.hddl:28: fault 9 ReservedName\n",
    },
    Refused {
        domain: Source::Text(TWICE),
        problem: Source::Text(PROBLEM),
        status: Status::TextFault,
        line: "d.hddl:53: fault 10 DuplicateName\n",
    },
    Refused {
        domain: Source::Text(
            "(define (domain d) (:task t :parameters ()) (:method m :parameters () :task (t) :subtasks (and (x (a)) (y (a))) :ORDERING (and (x < y) (< y x))) (:action a :parameters ()))",
        ),
        problem: Source::Text(PROBLEM),
        status: Status::TextFault,
        line: "d.hddl:135: fault 20 CyclicOrder\n",
    },
    // the form's fault comes before that of a name, which stands before it
    Refused {
        domain: Source::Text(
            "(define (domain d) (:task t :parameters (?x - nowhere)) (:action when :parameters ()))",
        ),
        problem: Source::Text(PROBLEM),
        status: Status::TextFault,
        line: "d.hddl:65: fault 9 ReservedName\n",
    },
    // the problem's faults
    Refused {
        domain: Source::Text(DOMAIN),
        problem: Source::Text("(define (problem p) (:domain d) (:htn :subtasks (t)))\""),
        status: Status::TextFault,
        line: "p.hddl:53: fault 1 BadByte\n",
    },
    Refused {
        domain: Source::Text(DOMAIN),
        problem: Source::Text("(define (problem p) (:domain d) (:htn :subtasks (u)))"),
        status: Status::TextFault,
        line: "p.hddl:49: fault 14 UnknownTask\n",
    },
    // faults in both
    Refused {
        domain: Source::Text(RESERVED),
        problem: Source::Text(")"),
        status: Status::TextFault,
        line: "d.hddl:28: fault 9 ReservedName\n",
    },
    Refused {
        domain: Source::Text(TWICE),
        problem: Source::Text(""),
        status: Status::TextFault,
        line: "d.hddl:53: fault 10 DuplicateName\n",
    },
    // texts without a fault
    Refused {
        domain: Source::Text(
            "(define (domain d) (:task t :parameters ()) (:method m :parameters () :task (t) :ordered-subtasks (and (t) (a))) (:action a :parameters ()))",
        ),
        problem: Source::Text(PROBLEM),
        status: Status::Finding,
        line: "not tail-recursive: t m t\n",
    },
    Refused {
        domain: Source::Text(
            "(define (domain d) (:task t :parameters ()) (:task u :parameters ()) (:method m :parameters () :task (t) :ordered-subtasks (and (u) (a))) (:method n :parameters () :task (u) :subtasks (t)) (:action a :parameters ()))",
        ),
        problem: Source::Text(PROBLEM),
        status: Status::Finding,
        line: "not tail-recursive: t m u n t\n",
    },
    // types
    Refused {
        domain: Source::Types(2000),
        problem: Source::Text(PROBLEM),
        status: Status::Limit,
        line: "limit types d.hddl:6027\n",
    },
    // the first subtask stands at byte 95, and each takes four bytes
    Refused {
        domain: Source::Times(&[
            (
                "(define (domain d) (:task t :parameters ()) (:method m :parameters () :task (t) :subtasks (and",
                1,
            ),
            (" (a)", 4097),
            (")) (:action a :parameters ()))", 1),
        ]),
        problem: Source::Text(PROBLEM),
        status: Status::Limit,
        line: "limit subtasks d.hddl:16479\n",
    },
    // a bound past all
    Refused {
        domain: Source::Powers(128),
        problem: Source::Text("(define (problem p) (:domain d) (:htn :subtasks (t128)))"),
        status: Status::Limit,
        line: "limit bound\n",
    },
];

/// A domain that is cut: with so many bytes, from `first` to `last`, it has this line.
#[derive(Clone, Copy)]
pub(super) struct Cut {
    pub(super) first: usize,
    pub(super) last: usize,
    pub(super) line: &'static str,
}

pub(super) const CUT_DOMAIN: &str = "(define (domain d) (:action a :parameters ()))";

/// The innermost list that is open at the end is named.
pub(super) const CUTS: &[Cut] = &[
    Cut {
        first: 0,
        last: 0,
        line: "d.hddl:0: fault 5 NotADefine\n",
    },
    Cut {
        first: 1,
        last: 8,
        line: "d.hddl:0: fault 2 UnclosedParen\n",
    },
    Cut {
        first: 9,
        last: 17,
        line: "d.hddl:8: fault 2 UnclosedParen\n",
    },
    Cut {
        first: 18,
        last: 19,
        line: "d.hddl:0: fault 2 UnclosedParen\n",
    },
    Cut {
        first: 20,
        last: 42,
        line: "d.hddl:19: fault 2 UnclosedParen\n",
    },
    Cut {
        first: 43,
        last: 43,
        line: "d.hddl:42: fault 2 UnclosedParen\n",
    },
    Cut {
        first: 44,
        last: 44,
        line: "d.hddl:19: fault 2 UnclosedParen\n",
    },
    Cut {
        first: 45,
        last: 45,
        line: "d.hddl:0: fault 2 UnclosedParen\n",
    },
];

/// Two texts, and their bound.
#[derive(Clone, Copy)]
pub(super) struct Bounded {
    pub(super) domain: Source,
    pub(super) problem: &'static str,
    pub(super) bound: &'static str,
}

const BLOCKS: &str =
    "(define (domain d) (:task x :parameters ()) (:method m :parameters () :task (x) :subtasks (and (a) (b))) (:action a :parameters ()) (:action b :parameters ()))";

pub(super) const BOUNDED: &[Bounded] = &[
    Bounded {
        domain: Source::Text(DOMAIN),
        problem: "(define (problem p) (:domain d) (:htn :subtasks ()))",
        bound: "1\n",
    },
    Bounded {
        domain: Source::Text(
            "(define (domain d) (:task t :parameters ()) (:method m1 :parameters () :task (t) :ordered-subtasks (and (a) (t))) (:method m0 :parameters () :task (t) :subtasks ()) (:action a :parameters ()))",
        ),
        problem: PROBLEM,
        bound: "2\n",
    },
    Bounded {
        domain: Source::Text(BLOCKS),
        problem: "(define (problem p) (:domain d) (:htn :subtasks (and (x) (x))))",
        bound: "4\n",
    },
    Bounded {
        domain: Source::Text(BLOCKS),
        problem: "(define (problem p) (:domain d) (:htn :ordered-subtasks (and (x) (x))))",
        bound: "3\n",
    },
    Bounded {
        domain: Source::Text(
            "(define (domain d) (:task x :parameters ()) (:method mx :parameters () :task (x) :subtasks (and (p) (q))) (:action p :parameters ()) (:action q :parameters ()) (:action y :parameters ()))",
        ),
        problem: "(define (problem p) (:domain d) (:htn :ordered-subtasks (and (x) (y))))",
        bound: "3\n",
    },
    Bounded {
        domain: Source::Text(
            "(define (domain d) (:predicates (ready)) (:task t :parameters ()) (:method m :parameters () :task (t) :precondition (ready) :subtasks (a)) (:action a :parameters ()) (:action u :parameters () :effect (ready)))",
        ),
        problem: "(define (problem p) (:domain d) (:htn :subtasks (and (t) (u))))",
        bound: "3\n",
    },
    // a check and 4,096 subtasks, as many as there may be, are pending at once
    Bounded {
        domain: Source::Times(&[
            (
                "(define (domain d) (:predicates (ready)) (:task t :parameters ()) (:method m :parameters () :task (t) :precondition (ready) :subtasks (and",
                1,
            ),
            (" (a)", 4096),
            (")) (:action a :parameters ()))", 1),
        ]),
        problem: PROBLEM,
        bound: "4097\n",
    },
    Bounded {
        domain: Source::Types(1999),
        problem: PROBLEM,
        bound: "1\n",
    },
    Bounded {
        domain: Source::Powers(128),
        problem: "(define (problem p) (:domain d) (:htn :subtasks (t127)))",
        bound: "170141183460469231731687303715884105728\n",
    },
];

/// The smallest problem with costs, which are read and dropped.
pub(super) const COSTS_DOMAIN: &str =
    "(define (domain d) (:functions (total-cost)) (:task t :parameters ()) (:method m :parameters () :task (t) :subtasks (a)) (:action a :parameters () :effect (increase (total-cost) 3)))";

pub(super) const COSTS_PROBLEM: &str =
    "(define (problem p) (:domain d) (:htn :subtasks (t)) (:init (= (total-cost) 0)) (:metric minimize (total-cost)))";
