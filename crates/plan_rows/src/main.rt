//! Prints for each row of `data/rows` how a run ends: its status, what it told on standard output, its line, and the texts that it wrote.
//!
//! Stands on `run`, over files in memory. A row is the words of a run, a domain, a problem and a plan, a bar behind each: first decodings,
//! then encodings, then what is made, then what is pruned, then levels of bounds, then first-free slots, then stacks. All but what is made
//! are of random problems, and plans of them, whole and broken, then of examples/transport and small problems, with 999 uses of a
//! tail-recursive method. Two programs that share nothing with this one, nor with each other, made what is due of the random ones and of
//! what is made, which `stdout` has, and agree on every byte; the others were worked out by hand, and the uses and the parts of first-free
//! slots by scripts. Nothing that this program prints was put in.
#![tactic(auto)]

use htn_base::Memory;
use htn_cli::run;
use memory_io::{MemFiles, MemSink};
use outside_io::{DiskFiles, Files, GetError};
use std::alloc::{AllocError, Global};
use std::io::{self, Write};
use std::process::ExitCode;
use std::str;

/// So many rows stand in `data/rows`.
const ROWS: u32 = 1078;

/// More bytes than these have.
const LIMIT: u64 = 1_000_000;

/// The most bytes that a sink takes at a time.
const LARGEST: usize = 4096;

/// Why a row isn't printed.
#[derive(Debug, Drop)]
enum Failure {
    /// A file was not read.
    File,
    /// There is no such row.
    Form,
    Memory,
    /// Standard output took no more.
    Output,
}

impl From<Memory> for Failure {
    fn from(_memory: Memory) -> Failure {
        Failure::Memory
    }
}

impl From<AllocError> for Failure {
    fn from(_error: AllocError) -> Failure {
        Failure::Memory
    }
}

impl From<GetError> for Failure {
    fn from(error: GetError) -> Failure {
        match error {
            GetError::Failed => Failure::File,
            GetError::Memory => Failure::Memory,
        }
    }
}

impl From<io::Error> for Failure {
    fn from(_error: io::Error) -> Failure {
        Failure::Output
    }
}

/// The words of a row, and its three texts.
#[derive(Clone, Copy)]
struct Row<'t> {
    words: &'t str,
    domain: &'t str,
    problem: &'t str,
    plan: &'t str,
}

fn main(rt: HostRuntime) -> ExitCode {
    let mut files = DiskFiles::new(rt);
    match print_rows(&rt, rt.alloc(), &mut files) {
        Ok(()) => ExitCode::SUCCESS,
        Err(failure) => {
            let _ = eprintln!(rt; "{failure:?}");
            ExitCode::FAILURE
        }
    }
}

fn print_rows(rt: &HostRuntime, alloc: Global, files: &mut DiskFiles) -> Result<(), Failure> {
    let bytes = files.get(alloc, "rows", LIMIT)?;
    match str::from_utf8(bytes.as_slice()) {
        Ok(text) => print_all(rt, alloc, text),
        Err(_) => Err(Failure::Form),
    }
}

fn print_all(rt: &HostRuntime, alloc: Global, text: &str) -> Result<(), Failure> {
    let mut rest = text;
    for _ in 0..ROWS {
        let (words, behind) = field_of(rest)?;
        let (domain, behind) = field_of(behind)?;
        let (problem, behind) = field_of(behind)?;
        let (plan, behind) = field_of(behind)?;
        print_row(
            rt,
            alloc,
            &Row {
                words,
                domain,
                problem,
                plan,
            },
        )?;
        rest = behind;
    }
    Ok(())
}

/// What stands in front of the next bar, and behind it.
fn field_of(text: &str) -> Result<(&str, &str), Failure> {
    match text.split_once('|') {
        Some((field, behind)) => Ok((field, behind)),
        None => Err(Failure::Form),
    }
}

fn print_row(rt: &HostRuntime, alloc: Global, row: &Row<'_>) -> Result<(), Failure> {
    let mut files = MemFiles::new(alloc);
    files.add("d.hddl", row.domain.as_bytes())?;
    files.add("p.hddl", row.problem.as_bytes())?;
    files.add("plan", row.plan.as_bytes())?;
    files.add("hplan", row.plan.as_bytes())?;
    let words = words_of(alloc, row.words)?;
    let mut out = MemSink::new(alloc, LARGEST);
    let mut err = MemSink::new(alloc, LARGEST);
    let status = run(alloc, words.as_slice(), &mut files, &mut out, &mut err).code();
    println!(rt; "status {status}")?;
    rt.stdout().write_all(out.bytes())?;
    rt.stdout().write_all(err.bytes())?;
    print_texts(rt, &files)
}

fn print_texts(rt: &HostRuntime, files: &MemFiles) -> Result<(), Failure> {
    for name in ["od.pddl", "op.pddl"] {
        if let Some(bytes) = files.bytes(name) {
            rt.stdout().write_all(bytes)?;
        }
    }
    Ok(())
}

/// The words of a run, one of which may be empty.
fn words_of(alloc: Global, text: &str) -> Result<Vec<String>, Memory> {
    let mut words = Vec::new(alloc);
    for word in text.split(' ') {
        words.push(String::from_str(alloc, word)?)?;
    }
    Ok(words)
}
