ghost use Rattle.std.specs.Prelude.{◌++◌, IfErr, OnOk};
ghost use Rattle.outside_io.specs.Seen.{Seen};
ghost use Rattle.htn_cli.specs.Faults.{place_text, fault_text};
ghost use Rattle.htn_cli.specs.Refusal.{line_of};
ghost use Rattle.htn_cli.specs.Line.{line_text};
ghost use Rattle.htn_cli.specs.Sent.{StopsAt, TakesWhole, Told};

use crate::faults::Place;
use crate::refusal::{Line, Middle, Refusal};
use crate::sending::send;
use itoa::Buffer;
use outside_io::{Sink, WriteError};
use text_values::fault_word;

/// Writes the line of a refusal, as far as the sink takes it.
pub(crate) fn tell<E: Sink>(err: &mut E, refusal: &Refusal<'_>)
    ensures told { Seen E.state (Told (line_of refusal.now)) err.old err.new }
{
    let line = refusal.line();
    let _ = send_line(err, &line);
}

fn send_line<E: Sink>(err: &mut E, line: &Line<'_>) -> Result<(), WriteError>
    ensures whole { OnOk result (Seen E.state (TakesWhole (line_text line.now)) err.old err.new) }
    ensures part { IfErr result (Seen E.state (StopsAt (line_text line.now)) err.old err.new) }
{
    let (before, after) = (line.before.as_bytes(), line.after.as_bytes());
    match line.middle {
        Middle::Words(words) => send_parts(err, before, words, after),
        Middle::Number(number) => {
            let mut buffer = Buffer::new();
            send_parts(err, before, buffer.format(number).as_bytes(), after)
        }
        Middle::Place(place) => send_place(err, before, place, after),
        Middle::Fault(place, code) => send_fault(err, before, place, code, after),
    }
}

/// Writes a place with what stands around it.
fn send_place<E: Sink>(
    err: &mut E,
    before: &[u8],
    place: Place<'_>,
    after: &[u8],
) -> Result<(), WriteError>
    ensures whole { let text = before.now ++ place_text place.entry ++ after.now in
        OnOk result (Seen E.state (TakesWhole text) err.old err.new) }
    ensures part { let text = before.now ++ place_text place.entry ++ after.now in
        IfErr result (Seen E.state (StopsAt text) err.old err.new) }
{
    let mut buffer = Buffer::new();
    send_parts(err, before, place.name.as_bytes(), b":")?;
    send_two(err, buffer.format(place.at).as_bytes(), after)
}

/// Writes a fault with what stands around it.
fn send_fault<E: Sink>(
    err: &mut E,
    before: &[u8],
    place: Place<'_>,
    code: u16,
    after: &[u8],
) -> Result<(), WriteError>
    ensures whole { let text = before.now ++ fault_text place.entry code ++ after.now in
        OnOk result (Seen E.state (TakesWhole text) err.old err.new) }
    ensures part { let text = before.now ++ fault_text place.entry code ++ after.now in
        IfErr result (Seen E.state (StopsAt text) err.old err.new) }
{
    let mut buffer = Buffer::new();
    send_place(err, before, place, b": fault ")?;
    send_two(err, buffer.format(code).as_bytes(), b" ")?;
    send_two(err, fault_word(code).as_bytes(), after)
}

fn send_parts<S: Sink>(
    sink: &mut S,
    first: &[u8],
    second: &[u8],
    third: &[u8],
) -> Result<(), WriteError>
    ensures whole { let text = first.now ++ second.now ++ third.now in
        OnOk result (Seen S.state (TakesWhole text) sink.old sink.new) }
    ensures part { let text = first.now ++ second.now ++ third.now in
        IfErr result (Seen S.state (StopsAt text) sink.old sink.new) }
{
    send_two(sink, first, second)?;
    send(sink, third)?;
    Ok(())
}

fn send_two<S: Sink>(sink: &mut S, first: &[u8], second: &[u8]) -> Result<(), WriteError>
    ensures whole { let text = first.now ++ second.now in
        OnOk result (Seen S.state (TakesWhole text) sink.old sink.new) }
    ensures part { let text = first.now ++ second.now in
        IfErr result (Seen S.state (StopsAt text) sink.old sink.new) }
{
    send(sink, first)?;
    send(sink, second)?;
    Ok(())
}
