//! Numbers of slots that are given, and bounds that are computed.
use super::rows::{BOUNDED, Bounded};
use super::texts::{CUBE_DOMAIN, CUBE_PROBLEM, DOMAIN, PROBLEM};
use super::{BOUND, Before, Row, Source, TRANSLATE, UNWRITTEN, replay};
use htn_cli::Status;
use std::alloc::Global;
use std::process::Abort;

const MANNERS: &[&[&str]] = &[
    &[],
    &["--checks", "atonce"],
    &["--style", "flat"],
    &["--checks", "atonce", "--style", "flat"],
];

fn has_slots(
    rt: &impl Abort,
    alloc: Global,
    slots: &'static [&'static str],
    manner: &'static [&'static str],
    out: &'static str,
) {
    replay(
        rt,
        alloc,
        &Row {
            before: Before::Both(Source::Text(DOMAIN), Source::Text(PROBLEM)),
            command: TRANSLATE,
            options: slots,
            more: manner,
            status: Status::Done,
            out,
            err: "",
            held: &[],
        },
    );
}

#[test]
fn many_slots(rt: HostRuntime) {
    for manner in MANNERS {
        has_slots(
            &rt,
            rt.alloc(),
            &["--bound", "4096"],
            manner,
            "slots 4096\n",
        );
    }
}

#[test]
fn as_many_slots_as_there_may_be(rt: HostRuntime) {
    for manner in MANNERS {
        has_slots(
            &rt,
            rt.alloc(),
            &["--bound", "65536"],
            manner,
            "slots 65536\n",
        );
        has_slots(
            &rt,
            rt.alloc(),
            &["--bound", "1024", "--slots", "first"],
            manner,
            "slots 1024\n",
        );
    }
}

const CELLS: &[&str] = &["--bound", "65536", "--form", "stack"];

const CELL_MANNERS: &[&[&str]] = &[&[], &["--checks", "atonce"]];

#[test]
fn as_many_cells_as_there_may_be(rt: HostRuntime) {
    for manner in CELL_MANNERS {
        has_slots(&rt, rt.alloc(), CELLS, manner, "slots 65536\n");
    }
}

/// Numbers of slots past a limit, and the line.
const PAST: &[(&[&str], &str)] = &[
    (&["--bound", "65537"], "limit slots 65537\n"),
    (
        &["--bound", "1025", "--slots", "first"],
        "limit slots 1025\n",
    ),
    (
        &["--bound", "65537", "--form", "stack"],
        "limit slots 65537\n",
    ),
    (
        &["--bound", "340282366920938463463374607431768211455"],
        "limit slots 340282366920938463463374607431768211455\n",
    ),
    (
        &["--bound", "340282366920938463463374607431768211456"],
        "limit bound\n",
    ),
    (
        &["--bound", "999999999999999999999999999999999999999"],
        "limit bound\n",
    ),
];

/// There are no files: none is read.
fn is_past(rt: &impl Abort, alloc: Global, slots: &'static [&'static str], err: &'static str) {
    replay(
        rt,
        alloc,
        &Row {
            before: Before::Nothing,
            command: TRANSLATE,
            options: slots,
            more: &[],
            status: Status::Limit,
            out: "",
            err,
            held: UNWRITTEN,
        },
    );
}

#[test]
fn slots_past_a_limit(rt: HostRuntime) {
    for (slots, err) in PAST {
        is_past(&rt, rt.alloc(), slots, err);
    }
}

fn is_bounded(rt: &impl Abort, alloc: Global, row: &Bounded) {
    replay(
        rt,
        alloc,
        &Row {
            before: Before::Both(row.domain, Source::Text(row.problem)),
            command: BOUND,
            options: &[],
            more: &[],
            status: Status::Done,
            out: row.bound,
            err: "",
            held: UNWRITTEN,
        },
    );
}

#[test]
fn computed_bounds(rt: HostRuntime) {
    for row in BOUNDED {
        is_bounded(&rt, rt.alloc(), row);
    }
}

#[test]
fn more_is_reached_than_is_counted(rt: HostRuntime) {
    replay(
        &rt,
        rt.alloc(),
        &Row {
            before: Before::Both(Source::Text(CUBE_DOMAIN), Source::Text(CUBE_PROBLEM)),
            command: BOUND,
            options: &["--level", "ground"],
            more: &[],
            status: Status::Limit,
            out: "",
            err: "limit ground\n",
            held: UNWRITTEN,
        },
    );
}
