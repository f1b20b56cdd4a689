//! Runs in memory. A row says what there is before a run and what there must be after it; `replay` makes the run.
use htn_base::Memory;
use htn_cli::{Status, run};
use memory_io::{MemFiles, MemSink};
use refused::{powers, types};
use std::alloc::Global;
use std::process::Abort;

mod bounds;
mod circles;
mod colours;
mod decodings;
mod prunings;
mod refused;
mod rows;
mod texts;
mod transport;
mod uses;
mod validations;
mod words;

/// A text of a file.
#[derive(Clone, Copy)]
enum Source {
    Text(&'static str),
    /// Between two others.
    Between(&'static str, &'static str, &'static str),
    /// So many bytes of it.
    Cut(&'static str, usize),
    /// Each so many times.
    Times(&'static [(&'static str, u32)]),
    /// Made by `refused::types` and `refused::powers`.
    Types(u32),
    Powers(u32),
}

/// The files before a run: those that are translated, those of a validation, and those that are decoded.
#[derive(Clone, Copy)]
enum Before {
    Nothing,
    Domain(Source),
    Both(Source, Source),
    Plan(Source, Source, Source),
    Spelled(Source, Source, Source),
}

/// A run: the files before it; its words, in groups; how it ends, with what is on standard output and standard error; and
/// texts of names after it, or that nothing is held.
#[derive(Clone, Copy)]
struct Row {
    before: Before,
    command: &'static [&'static str],
    options: &'static [&'static str],
    more: &'static [&'static str],
    status: Status,
    out: &'static str,
    err: &'static str,
    held: &'static [(&'static str, Option<&'static str>)],
}

/// No output is held.
const UNWRITTEN: &[(&str, Option<&str>)] = &[("od.pddl", None), ("op.pddl", None)];

const TRANSLATE: &[&str] = &["translate", "d.hddl", "p.hddl", "od.pddl", "op.pddl"];

const BOUND: &[&str] = &["bound", "d.hddl", "p.hddl"];

const VALIDATE: &[&str] = &["validate", "pd", "pp", "plan"];

const DECODE: &[&str] = &["decode", "d.hddl", "p.hddl", "plan"];

/// All that a run can reach, in memory. Standard output takes three bytes at a time, and standard error one.
#[derive(Drop)]
struct Outside {
    alloc: Global,
    files: MemFiles,
    out: MemSink,
    err: MemSink,
}

impl Outside {
    fn new(alloc: Global) -> Outside {
        Outside {
            alloc,
            files: MemFiles::new(alloc),
            out: MemSink::new(alloc, 3),
            err: MemSink::new(alloc, 1),
        }
    }

    fn add(&mut self, name: &str, source: &Source) -> Result<(), Memory> {
        let text = text_of(self.alloc, source)?;
        let added = self.files.add(name, text.as_bytes());
        drop(text);
        added
    }

    fn add_all(&mut self, before: &Before) -> Result<(), Memory> {
        match before {
            Before::Nothing => Ok(()),
            Before::Domain(domain) => self.add("d.hddl", domain),
            Before::Both(domain, problem) => {
                self.add("d.hddl", domain)?;
                self.add("p.hddl", problem)
            }
            Before::Plan(domain, problem, plan) => {
                self.add("pd", domain)?;
                self.add("pp", problem)?;
                self.add("plan", plan)
            }
            Before::Spelled(domain, problem, plan) => {
                self.add("d.hddl", domain)?;
                self.add("p.hddl", problem)?;
                self.add("plan", plan)
            }
        }
    }

    fn run(&mut self, row: &Row) -> Result<Status, Memory> {
        let words = words_of(self.alloc, row)?;
        let status = run(
            self.alloc,
            words.as_slice(),
            &mut self.files,
            &mut self.out,
            &mut self.err,
        );
        drop(words);
        Ok(status)
    }

    /// A plan is as it was.
    fn keeps(&self, rt: &impl Abort, before: &Before) -> Result<(), Memory> {
        let Before::Plan(_, _, plan) = before else {
            return Ok(());
        };
        let text = text_of(self.alloc, plan)?;
        let kept = self.holds("plan", Some(text.as_str()));
        drop(text);
        assert!(rt; kept);
        Ok(())
    }

    fn compare(&self, rt: &impl Abort, row: &Row) {
        assert_eq!(rt; self.out.bytes(), row.out.as_bytes());
        assert_eq!(rt; self.err.bytes(), row.err.as_bytes());
        for (name, text) in row.held {
            assert!(rt; self.holds(name, *text), "{name}");
        }
    }

    fn holds(&self, name: &str, text: Option<&str>) -> bool {
        match self.files.bytes(name) {
            Some(bytes) => text.is_some_and(|text| bytes == text.as_bytes()),
            None => text.is_none(),
        }
    }
}

fn text_of(alloc: Global, source: &Source) -> Result<String, Memory> {
    let mut text = String::new(alloc);
    write(&mut text, alloc, source)?;
    Ok(text)
}

fn write(text: &mut String, alloc: Global, source: &Source) -> Result<(), Memory> {
    match source {
        Source::Text(whole) => repeat(text, &[(*whole, 1)]),
        Source::Between(before, middle, after) => {
            repeat(text, &[(*before, 1), (*middle, 1), (*after, 1)])
        }
        Source::Cut(whole, length) => repeat(text, &[(whole.get(..*length).unwrap_or(""), 1)]),
        Source::Times(pieces) => repeat(text, pieces),
        Source::Types(last) => types(text, alloc, *last),
        Source::Powers(count) => powers(text, alloc, *count),
    }
}

fn repeat(text: &mut String, pieces: &[(&str, u32)]) -> Result<(), Memory> {
    for (piece, count) in pieces {
        for _ in 0..*count {
            text.push_str(piece)?;
        }
    }
    Ok(())
}

fn words_of(alloc: Global, row: &Row) -> Result<Vec<String>, Memory> {
    let mut owned = Vec::new(alloc);
    for words in [row.command, row.options, row.more] {
        for word in words {
            owned.push(String::from_str(alloc, word)?)?;
        }
    }
    Ok(owned)
}

/// Makes the run of the row, and compares how it ends with what the row says.
fn replay(rt: &impl Abort, alloc: Global, row: &Row) {
    let mut outside = Outside::new(alloc);
    let replayed = replay_in(rt, &mut outside, row);
    drop(outside);
    assert!(rt; replayed.is_ok(), "out of memory");
}

fn replay_in(rt: &impl Abort, outside: &mut Outside, row: &Row) -> Result<(), Memory> {
    outside.add_all(&row.before)?;
    let status = outside.run(row)?;
    assert_eq!(rt; status, row.status);
    outside.compare(rt, row);
    outside.keeps(rt, &row.before)
}

fn replay_all(rt: &impl Abort, alloc: Global, rows: &[Row]) {
    for row in rows {
        replay(rt, alloc, row);
    }
}
