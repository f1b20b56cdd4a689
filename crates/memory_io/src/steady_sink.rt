ghost use Rattle.std.specs.Prelude.{◌≡◌, ◌<◌, IfOk, IfErr, OnOk, OnErr, length, min};
ghost use Rattle.std.specs.Result.{IsOkUnless};
ghost use Rattle.outside_io.specs.Sink.{WriteTakes, WriteRefused};
ghost use Rattle.outside_io.specs.Seen.{Seen};
ghost use Rattle.memory_io.specs.Steady.{after_taking, after_want, empty_bounded, steady_sink};

use htn_base::Text;
use outside_io::{Sink, WriteError};
use std::alloc::Global;
use std::marker::Model;

/// A sink in memory that never fails, and takes a few bytes at a time.
pub struct SteadySink {
    text: Text,
    largest: usize,
    refused: u64,
}

impl Drop for SteadySink {
    fn drop(self) {
        let SteadySink {
            text: _,
            largest: _,
            refused: _,
        } = self;
    }
}

impl Model for SteadySink {
    ghost use Rattle.std.specs.Prelude.{◌<◌};
    ghost use Rattle.memory_io.specs.Steady.{BoundedSink};

    ghost Value = { BoundedSink };

    ghost view = { λ s. record { bytes = s.text; largest = s.largest; refused = s.refused } };

    ghost invariant = { λ s. 0 < s.largest };
}

impl SteadySink {
    /// An empty sink that takes at most `largest` bytes at a time.
    pub fn new(alloc: Global, largest: usize) -> SteadySink
        requires { 0 < largest }
        ensures empty { result ≡ empty_bounded largest }
    {
        SteadySink {
            text: Text::new(alloc),
            largest,
            refused: 0,
        }
    }

    /// All bytes that were taken.
    pub fn bytes(&self) -> &[u8]
        ensures taken { result.now ≡ self.now.bytes }
    {
        self.text.as_slice()
    }
}

impl Sink for SteadySink {
    ghost state = { steady_sink };

    fn write(&mut self, piece: &[u8]) -> Result<usize, WriteError>
        ensures ok { IfOk result (Seen steady_sink WriteTakes self.old self.new piece.now) }
        ensures err { IfErr result (Seen steady_sink WriteRefused self.old self.new) }
        ensures never_fails { IsOkUnless result WriteError.Memory }
        ensures largest { IfOk result (λ count. count ≡ min (length piece.now) self.old.largest) }
        ensures taken { OnOk result (self.new ≡ after_taking self.old piece.now) }
        ensures refused { OnErr result (self.new ≡ after_want self.old) }
    {
        let count = piece.len().min(self.largest);
        if self.text.push_all(&piece[..count]).is_err() {
            self.refused = self.refused.saturating_add(1);
            return Err(WriteError::Memory);
        }
        Ok(count)
    }
}
