//! Words that no command has.
use super::texts::{DOMAIN, PROBLEM};
use super::{Before, Row, Source, TRANSLATE, UNWRITTEN, replay};
use htn_cli::Status;
use std::alloc::Global;
use std::process::Abort;

const WORDS: &[&[&str]] = &[
    &[],
    &[
        "decode", "d.hddl", "p.hddl", "od.pddl", "op.pddl", "--bound", "1",
    ],
    &[
        "translate",
        "d.hddl",
        "p.hddl",
        "d.hddl",
        "op.pddl",
        "--bound",
        "1",
    ],
    &[
        "translate",
        "d.hddl",
        "p.hddl",
        "od.pddl",
        "od.pddl",
        "--bound",
        "1",
    ],
    &["bound", "d.hddl"],
    &["bound", "d.hddl", "p.hddl", "--bound", "1"],
    &["bound", "d.hddl", "p.hddl", "--style", "adl"],
    &["bound", "d.hddl", "p.hddl", "--level"],
    &["bound", "d.hddl", "p.hddl", "--form", "stack"],
    &["encode", "d.hddl", "p.hddl", "hplan", "--level", "ground"],
    &["prune", "d.hddl", "p.hddl", "p.hddl", "op.pddl"],
    &[
        "prune", "d.hddl", "p.hddl", "od.pddl", "op.pddl", "--checks", "leaf",
    ],
];

const OPTIONS: &[&[&str]] = &[
    &["--bound"],
    &["--bound", "0"],
    &["--bound", "+1"],
    &["--bound", ""],
    &["--bound", "0000000000000000000000000000000000000001"],
    &["--bound", "1", "--bound", "1"],
    &["--style", "flat", "--style", "flat"],
    &["--bound", "1", "--style", "strips"],
    &["--bound", "1", "--slots", "1"],
    &["--level", "flat"],
    &["--level", "ground", "--bound", "1"],
    &["--form", "flat"],
    &["--form", "stack", "--style", "adl"],
    &["--slots", "any", "--form", "stack"],
];

fn refuses(
    rt: &impl Abort,
    alloc: Global,
    command: &'static [&'static str],
    options: &'static [&'static str],
) {
    replay(
        rt,
        alloc,
        &Row {
            before: Before::Both(Source::Text(DOMAIN), Source::Text(PROBLEM)),
            command,
            options,
            more: &[],
            status: Status::Words,
            out: "",
            err: "words refused\n",
            held: UNWRITTEN,
        },
    );
}

#[test]
fn words_of_no_form(rt: HostRuntime) {
    for words in WORDS {
        refuses(&rt, rt.alloc(), words, &[]);
    }
}

#[test]
fn options_of_no_form(rt: HostRuntime) {
    for options in OPTIONS {
        refuses(&rt, rt.alloc(), TRANSLATE, options);
    }
}
