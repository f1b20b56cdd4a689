ghost use Rattle.std.specs.Prelude.{◌<◌, IfOk, IfErr, OnOk, length};
ghost use Rattle.outside_io.specs.Seen.{Seen};
ghost use Rattle.outside_io.specs.Sink.{WriteRefused};
ghost use Rattle.htn_cli.specs.Sent.{StopsAt, TakesNext, TakesWhole};

use outside_io::{Sink, WriteError};

/// Writes a text whole, or as far as the sink takes it. Each turn takes at least one byte.
pub(crate) fn send<S: Sink>(sink: &mut S, text: &[u8]) -> Result<(), WriteError>
    ensures whole { OnOk result (Seen S.state (TakesWhole text.now) sink.old sink.new) }
    ensures part { IfErr result (Seen S.state (StopsAt text.now) sink.old sink.new) }
{
    let mut done = 0;
    while done < text.len() {
        done += send_from(sink, text, done)?;
    }
    Ok(())
}

/// Writes some of the bytes of a text from `done` on, and answers how many.
fn send_from<S: Sink>(sink: &mut S, text: &[u8], done: usize) -> Result<usize, WriteError>
    requires { done < length text.now }
    ensures next { IfOk result (Seen S.state (TakesNext text.now done) sink.old sink.new) }
    ensures refused { IfErr result (Seen S.state WriteRefused sink.old sink.new) }
{
    sink.write(&text[done..])
}
