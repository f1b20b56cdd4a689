ghost use Rattle.std.specs.Prelude.{◌≡◌, ◌++◌};
ghost use Rattle.command_words.specs.Names.{words_of};
ghost use Rattle.htn_cli.specs.Ending.{IsBeforePuts};
ghost use Rattle.htn_cli.specs.Passing.{PassesDone, PassesFinding, PassesRefused};
ghost use Rattle.outside_io.specs.declared.stream.Stream.TheVariants.{Error, Output};

use crate::program::run;
use crate::status::Status;
use outside_io::{DiskFiles, StdSink};
use std::alloc::Global;
use std::env;
use std::io::{self, ErrorKind};

/// The status where the system does not give the arguments. `run` never gives it.
const NO_ARGUMENTS: u8 = 8;

/// Does what the arguments of the process ask, over the real files and streams, and gives the
/// status that the process is to end with.
pub fn ending(rt: HostRuntime) -> u8 {
    match arguments(rt) {
        Ok(words) => {
            let mut files = DiskFiles::new(rt);
            let mut out = StdSink::output(rt);
            let mut err = StdSink::error(rt);
            run_outside(rt.alloc(), words.as_slice(), &mut files, &mut out, &mut err).code()
        }
        Err(error) if error.kind() == ErrorKind::OutOfMemory => Status::NoMemory.code(),
        Err(_) => NO_ARGUMENTS,
    }
}

/// The same as `run`, over the real files, on standard output and standard error. What is said of the
/// bytes that passed needs nothing to be told of the files.
fn run_outside(
    alloc: Global,
    words: &[String],
    files: &mut DiskFiles,
    out: &mut StdSink,
    err: &mut StdSink,
) -> Status
    requires output { out.old.stream ≡ Output }
    requires error { err.old.stream ≡ Error }
    ensures passed { result ≡ Status.Done → PassesDone (words_of words.now)
        (λ calls. files.new.passed ≡ files.old.passed ++ calls) out.old.state out.new.state }
    ensures stopped { IsBeforePuts result → PassesRefused (words_of words.now)
        (λ calls. files.new.passed ≡ files.old.passed ++ calls) result
        err.old.state err.new.state }
    ensures found { result ≡ Status.Finding → PassesFinding (words_of words.now)
        (λ calls. files.new.passed ≡ files.old.passed ++ calls) err.old.state err.new.state }
{
    run(alloc, words, files, out, err)
}

/// The arguments after the program's own name.
fn arguments(rt: HostRuntime) -> io::Result<Vec<String>> {
    let words = env::args(&rt)?.skip(1).collect(rt.alloc())?;
    Ok(words)
}
