ghost use Rattle.std.specs.Prelude.{◌≢◌};

use htn_cli::{Status, run};
use memory_io::{SteadyFiles, SteadySink};
use std::alloc::Global;

/// A run over files and streams whose counts of failures never rise ends neither with a failure of reading nor with one of
/// writing.
pub fn steady_run(
    alloc: Global,
    words: &[String],
    files: &mut SteadyFiles,
    out: &mut SteadySink,
    err: &mut SteadySink,
) -> Status
    ensures reads { result ≢ Status.ReadFault }
    ensures writes { result ≢ Status.WriteFault }
{
    run(alloc, words, files, out, err)
}
