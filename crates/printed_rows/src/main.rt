//! Prints whole rows: for each small problem of `data/` the two PDDL texts, at some numbers of slots, in both styles and in both
//! modes of preconditions; and then a line each for some problems, with the blocks of its network and its bound, or the bad cycle
//! that is named; and last a line for each of many pairs of HDDL texts, with its least fault, as a run names it, or that it is
//! accepted.
//!
//! Stands on the reader of the two texts, the compiler and what prints its problem, and compares with the encoder and the printer
//! by themselves; and on the strata and the bound. `data/` has the problems, and `stdout` the texts that are due, byte for byte.
//! Two programs that share nothing with this one, nor with each other, made each PDDL text from the same problems, into a file of
//! its own, and agree on every byte. A script then put these files one after the other, by name, each behind a line with its
//! name. The lines with bounds were worked out by hand from the definitions, as comments in `data/` and at the cases say.
//! `data/pairs` has the pairs, a domain and then its problem, with a bar between any two: one small domain and problem with one
//! token left out, put in, doubled or exchanged. Two programs, again apart from this one and from each other, made each line that
//! is due for them, and agree on all. Nothing that this program prints was put in.
#![tactic(auto)]

mod bounds;
mod cases;
mod faults;
mod ready;
mod rows;
mod running;

use crate::bounds::print_bounds;
use crate::faults::print_faults;
use crate::running::{Failure, print_all};
use outside_io::DiskFiles;
use std::process::ExitCode;

fn main(rt: HostRuntime) -> ExitCode {
    let mut files = DiskFiles::new(rt);
    match print_rows(&rt, &mut files) {
        Ok(()) => ExitCode::SUCCESS,
        Err(failure) => {
            let _ = eprintln!(rt; "{failure:?}");
            ExitCode::FAILURE
        }
    }
}

fn print_rows(rt: &HostRuntime, files: &mut DiskFiles) -> Result<(), Failure> {
    print_all(rt, rt.alloc(), files)?;
    print_bounds(rt, rt.alloc(), files)?;
    print_faults(rt, rt.alloc(), files)
}
