ghost use Rattle.std.specs.Prelude.{◌≡◌, ◌<◌, IfOk, IfErr, OnOk, OnErr, IsErrOf, true, false, length, min};
ghost use Rattle.outside_io.specs.Sink.{WriteTakes, WriteRefused};
ghost use Rattle.outside_io.specs.Seen.{Seen};
ghost use Rattle.memory_io.specs.Script.{after_refused_write, after_write, empty_sink, fails_next, sink_state, with_failing_write};

use crate::script::Script;
use crate::steady_sink::SteadySink;
use htn_base::Memory;
use outside_io::{Sink, WriteError};
use std::alloc::Global;
use std::marker::Model;

/// A sink in memory that takes a few bytes at a time, and of which chosen writes fail.
pub struct MemSink {
    sink: SteadySink,
    writes: Script,
}

impl Drop for MemSink {
    fn drop(self) {
        let MemSink { sink: _, writes: _ } = self;
    }
}

impl Model for MemSink {
    ghost use Rattle.memory_io.specs.Script.{ScriptedSink};

    ghost Value = { ScriptedSink };

    ghost view = { λ s. record { sink = s.sink; writes = s.writes } };
}

impl MemSink {
    /// An empty sink that takes at most `largest` bytes at a time.
    pub fn new(alloc: Global, largest: usize) -> MemSink
        requires { 0 < largest }
        ensures empty { result ≡ empty_sink largest }
    {
        MemSink {
            sink: SteadySink::new(alloc, largest),
            writes: Script::new(alloc),
        }
    }

    /// Lets write number `k` fail, counted from 0.
    pub fn fail_write(&mut self, k: u32) -> Result<(), Memory>
        ensures added { OnOk result (self.new ≡ with_failing_write self.old k) }
        ensures unchanged { OnErr result (self.new ≡ self.old) }
    {
        self.writes.fail(k)
    }

    /// All bytes that were taken.
    pub fn bytes(&self) -> &[u8]
        ensures taken { result.now ≡ self.now.sink.bytes }
    {
        self.sink.bytes()
    }
}

impl Sink for MemSink {
    ghost state = { sink_state };

    fn write(&mut self, piece: &[u8]) -> Result<usize, WriteError>
        ensures ok { IfOk result (Seen sink_state WriteTakes self.old self.new piece.now) }
        ensures err { IfErr result (Seen sink_state WriteRefused self.old self.new) }
        ensures largest { IfOk result (λ n. n ≡ min (length piece.now) self.old.sink.largest) }
        ensures unscripted { OnOk result (fails_next self.old.writes ≡ false) }
        ensures caused { IsErrOf result WriteError.Failed → fails_next self.old.writes ≡ true }
        ensures taken { OnOk result (self.new ≡ after_write self.old piece.now) }
        ensures refused { IfErr result (λ error. self.new ≡ after_refused_write self.old error) }
    {
        if self.writes.fails_next() {
            self.writes.count_fault();
            return Err(WriteError::Failed);
        }
        let count = self.sink.write(piece)?;
        self.writes.count_call();
        Ok(count)
    }
}
