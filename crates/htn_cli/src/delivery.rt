ghost use Rattle.std.specs.Prelude.{◌≡◌, ◌≢◌, IfErr, OnOk};
ghost use Rattle.outside_io.specs.Files.{PutGives};
ghost use Rattle.outside_io.specs.Seen.{Seen};
ghost use Rattle.htn_cli.specs.Left.{Stand, StandsUpTo};
ghost use Rattle.htn_cli.specs.Made.{NamesDiffer, output_of, texts_in};
ghost use Rattle.outside_io.specs.Calls.{stored};
ghost use Rattle.outside_io.specs.Passed.{with_call};
ghost use Rattle.htn_cli.specs.Passing.{CallsAre, puts};
ghost use Rattle.htn_cli.specs.Sent.{TakesWhole};
ghost use Rattle.htn_cli.specs.Stops.{StopsDelivery, StopsPrint, StopsPut, StopsPuts};

use crate::output::{Output, Written};
use crate::refusal::{Failure, Refusal};
use crate::sending::send;
use outside_io::{Files, PutError, Sink, WriteError};

/// Puts the texts of an output, and then tells its line.
pub(crate) fn deliver<'a, F: Files, O: Sink>(
    output: &Output<'a>,
    files: &mut F,
    out: &mut O,
) -> Result<(), Refusal<'a>>
    requires differ { NamesDiffer output.now }
    ensures stands { OnOk result (StandsUpTo TakesWhole (output_of output.now)
        (F.state files.old) (F.state files.new) (O.state out.old) (O.state out.new)) }
    ensures refused { IfErr result (StopsDelivery (output_of output.now)
        (F.state files.old) (F.state files.new) (O.state out.old) (O.state out.new)) }
    ensures passed { OnOk result (Seen F.passed CallsAre files.old files.new
        (puts (output_of output.now).texts)) }
{
    match &output.written {
        None => print(out, output.told.as_slice()),
        Some(written) => {
            put_both(files, written)?;
            print(out, output.told.as_slice())
        }
    }
}

fn put_both<'a, F: Files>(files: &mut F, written: &Written<'a>) -> Result<(), Refusal<'a>>
    requires differ { written.now.od.now ≢ written.now.op.now }
    ensures stand { OnOk result
        (Seen F.state (Stand (texts_in written.now)) files.old files.new) }
    ensures refused { IfErr result
        (Seen F.state (StopsPuts (texts_in written.now)) files.old files.new) }
    ensures passed { OnOk result
        (Seen F.passed CallsAre files.old files.new (puts (texts_in written.now))) }
{
    put(files, written.od, written.texts.domain.as_slice())?;
    put(files, written.op, written.texts.problem.as_slice())
}

fn put<'a, F: Files>(files: &mut F, name: &'a str, text: &[u8]) -> Result<(), Refusal<'a>>
    ensures written { OnOk result (Seen F.state PutGives files.old files.new name.now text.now) }
    ensures refused { IfErr result (Seen F.state (StopsPut name.now) files.old files.new) }
    ensures passed { OnOk result (F.passed files.new
        ≡ with_call (F.passed files.old) (stored name.now text.now)) }
{
    match files.put(name, text) {
        Ok(()) => Ok(()),
        Err(PutError::Failed) => Err(Refusal::Failure(Failure::Writing(name))),
        Err(PutError::Memory) => Err(Refusal::Failure(Failure::Memory)),
    }
}

fn print<'a, O: Sink>(out: &mut O, text: &[u8]) -> Result<(), Refusal<'a>>
    ensures written { OnOk result (Seen O.state (TakesWhole text.now) out.old out.new) }
    ensures refused { IfErr result (Seen O.state (StopsPrint text.now) out.old out.new) }
{
    match send(out, text) {
        Ok(()) => Ok(()),
        Err(WriteError::Failed) => Err(Refusal::Failure(Failure::Telling)),
        Err(WriteError::Memory) => Err(Refusal::Failure(Failure::Memory)),
    }
}
