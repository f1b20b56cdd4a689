//! Texts that are refused, by both commands with the same line.
use super::rows::{CUT_DOMAIN, CUTS, REFUSED, Refused};
use super::texts::PROBLEM;
use super::{BOUND, Before, Row, Source, TRANSLATE, UNWRITTEN, replay};
use htn_base::Memory;
use htn_cli::Status;
use std::alloc::Global;
use std::process::Abort;

fn refuses(rt: &impl Abort, alloc: Global, row: &Refused) {
    refuses_by(rt, alloc, row, TRANSLATE);
    refuses_by(rt, alloc, row, BOUND);
}

fn refuses_by(rt: &impl Abort, alloc: Global, row: &Refused, command: &'static [&'static str]) {
    replay(
        rt,
        alloc,
        &Row {
            before: Before::Both(row.domain, row.problem),
            command,
            options: &[],
            more: &[],
            status: row.status,
            out: "",
            err: row.line,
            held: UNWRITTEN,
        },
    );
}

#[test]
fn texts_that_are_refused(rt: HostRuntime) {
    for row in REFUSED {
        refuses(&rt, rt.alloc(), row);
    }
}

fn refuses_cut(rt: &impl Abort, alloc: Global, length: usize, line: &'static str) {
    refuses(
        rt,
        alloc,
        &Refused {
            domain: Source::Cut(CUT_DOMAIN, length),
            problem: Source::Text(PROBLEM),
            status: Status::TextFault,
            line,
        },
    );
}

#[test]
fn texts_that_are_cut(rt: HostRuntime) {
    for cut in CUTS {
        for length in cut.first..=cut.last {
            refuses_cut(&rt, rt.alloc(), length, cut.line);
        }
    }
}

/// The smallest domain with the types `t1000` to `t` and this number; the first stands at byte 27, and each takes six bytes.
pub(super) fn types(text: &mut String, alloc: Global, last: u32) -> Result<(), Memory> {
    text.push_str("(define (domain d) (:types")?;
    for number in 1000..=last {
        text.push_str(&format!(in alloc; " t{number}")?)?;
    }
    Ok(text.push_str(
        ") (:task t :parameters ()) (:method m :parameters () :task (t) :subtasks (a)) (:action a :parameters ()))",
    )?)
}

/// So many tasks: the first has a method to two actions, each other one to two of the one before.
pub(super) fn powers(text: &mut String, alloc: Global, count: u32) -> Result<(), Memory> {
    text.push_str("(define (domain d) (:action t0 :parameters ())")?;
    for before in 0..count {
        let task = before + 1;
        text.push_str(&format!(in alloc;
            " (:task t{task} :parameters ()) (:method m{task} :parameters () :task (t{task}) :subtasks (and (t{before}) (t{before})))"
        )?)?;
    }
    Ok(text.push_str(")")?)
}
