ghost use Rattle.std.specs.Prelude.{◌≡◌, IfOk, IfErr};
ghost use Rattle.outside_io.specs.Sink.{WriteTakes, WriteRefused};
ghost use Rattle.outside_io.specs.Streams.{unused_stream, with_taken};
ghost use Rattle.outside_io.specs.Untold.{counted_write};

use crate::log::{Call, Log};
use crate::sink::{Sink, WriteError};
use crate::stream::Stream;
use std::io::{ErrorKind, Write};
use std::marker::Model;

/// A standard stream. It tells which one it is and the bytes that it said it took; each failure of
/// a write raises a count.
#[derive(Drop)]
pub struct StdSink {
    runtime: HostRuntime,
    stream: Stream,
    faults: u64,
    refused: u64,
    log: Log,
}

impl Model for StdSink {
    ghost use Rattle.outside_io.specs.Calls.{written_by};
    ghost use Rattle.outside_io.specs.Streams.{StreamState, told_sink};

    ghost Value = { StreamState };

    ghost view = { λ s.
        record { stream = s.stream; state = told_sink (written_by s.log.calls) s.faults s.refused } };
}

impl StdSink {
    /// Standard output.
    pub fn output(runtime: HostRuntime) -> StdSink
        ensures unused { result ≡ unused_stream Stream.Output }
    {
        StdSink::new(runtime, Stream::Output)
    }

    /// Standard error.
    pub fn error(runtime: HostRuntime) -> StdSink
        ensures unused { result ≡ unused_stream Stream.Error }
    {
        StdSink::new(runtime, Stream::Error)
    }

    fn new(runtime: HostRuntime, stream: Stream) -> StdSink
        ensures unused { result ≡ unused_stream stream }
    {
        StdSink {
            runtime,
            stream,
            faults: 0,
            refused: 0,
            log: Log::new(),
        }
    }

    /// Notes the bytes that were taken.
    #[tactic(auto, using(crate::proofs::Written::written_then))]
    fn note(&mut self, bytes: &[u8])
        ensures { self.new ≡ with_taken self.old bytes.now }
    {
        self.log = self.log.then(&Call::Wrote(bytes));
    }
}

impl Sink for StdSink {
    ghost state = { λ s. s.state };

    fn write(&mut self, piece: &[u8]) -> Result<usize, WriteError>
        ensures ok { IfOk result (WriteTakes self.old.state self.new.state piece.now) }
        ensures err { IfErr result (WriteRefused self.old.state self.new.state) }
        ensures counted { IfErr result (λ error. self.new.state ≡ counted_write self.old.state error) }
        ensures stream { self.new.stream ≡ self.old.stream }
    {
        let written = match self.stream {
            Stream::Output => self.runtime.stdout().write(piece),
            Stream::Error => self.runtime.stderr().write(piece),
        };
        match written {
            Ok(count) if 0 < count || piece.is_empty() => {
                self.note(&piece[..count]);
                Ok(count)
            }
            Err(error) if error.kind() == ErrorKind::OutOfMemory => {
                self.refused = self.refused.saturating_add(1);
                Err(WriteError::Memory)
            }
            // A write that takes nothing of a piece is a failure as well.
            _ => {
                self.faults = self.faults.saturating_add(1);
                Err(WriteError::Failed)
            }
        }
    }
}
