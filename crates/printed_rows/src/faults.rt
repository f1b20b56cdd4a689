use crate::running::Failure;
use htn_base::Fault;
use outside_io::{DiskFiles, Files};
use std::alloc::Global;
use std::str;
use text_forms::sexpr_text::ReadError;
use text_values::{fault_word, hddl_of};

/// So many pairs stand in `data/pairs`.
const PAIRS: u32 = 361;

/// More bytes than these have.
const LIMIT: u64 = 1_000_000;

/// Prints for each pair its least fault, as a run names it, or that it is accepted.
pub fn print_faults(rt: &HostRuntime, alloc: Global, files: &mut DiskFiles) -> Result<(), Failure> {
    let bytes = files.get(alloc, "pairs", LIMIT)?;
    match str::from_utf8(bytes.as_slice()) {
        Ok(text) => print_pairs(rt, alloc, text),
        Err(_) => Err(Failure::Form),
    }
}

fn print_pairs(rt: &HostRuntime, alloc: Global, text: &str) -> Result<(), Failure> {
    let mut rest = text;
    for _ in 0..PAIRS {
        let (domain, problem, behind) = pair_of(rest)?;
        print_pair(rt, alloc, domain, problem)?;
        rest = behind;
    }
    Ok(())
}

/// A domain, its problem, and what stands behind them.
fn pair_of(text: &str) -> Result<(&str, &str, &str), Failure> {
    match text.split_once('|') {
        None => Err(Failure::Form),
        Some((domain, rest)) => match rest.split_once('|') {
            None => Ok((domain, rest, "")),
            Some((problem, behind)) => Ok((domain, problem, behind)),
        },
    }
}

fn print_pair(rt: &HostRuntime, alloc: Global, domain: &str, problem: &str) -> Result<(), Failure> {
    let domain = domain.as_bytes();
    let problem = problem.as_bytes();
    if domain.len() > LIMIT as usize || problem.len() > LIMIT as usize {
        return Err(Failure::Form);
    }
    match hddl_of(alloc, domain, problem) {
        Ok(value) => {
            drop(value);
            println!(rt; "accepted")?;
        }
        Err(ReadError::Bad(fault)) => print_fault(rt, fault)?,
        Err(ReadError::Memory) => return Err(Failure::Memory),
    }
    Ok(())
}

fn print_fault(rt: &HostRuntime, fault: Fault) -> Result<(), Failure> {
    let Fault { code, file, at } = fault;
    let name = if file == 0 { "d.hddl" } else { "p.hddl" };
    let word = fault_word(code);
    println!(rt; "{name}:{at}: fault {code} {word}")?;
    Ok(())
}
