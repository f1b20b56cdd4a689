//! Files and sinks in memory of which one call fails or finds no memory, and which keep in mind what was asked of them.
ghost use Rattle.std.specs.Prelude.{◌≡◌, IfOk, IfErr, OnOk};
ghost use Rattle.outside_io.specs.Files.{GetGives, GetRefused, PutGives, PutRefused};
ghost use Rattle.outside_io.specs.Sink.{WriteTakes, WriteRefused};
ghost use Rattle.outside_io.specs.Seen.{Seen};
ghost use Rattle.memory_io.specs.Script.{files_state, sink_state};

use htn_base::Memory;
use memory_io::{MemFiles, MemSink};
use outside_io::{Files, GetError, PutError, Sink, WriteError};
use std::alloc::Global;

/// So many bytes each get asks for: one more than a text may have.
const ASKED: u64 = 16_777_217;

/// A sink takes so many bytes at a time.
pub(crate) const LARGEST: usize = 3;

/// A call, by its number among those of its kind, from 0.
#[derive(Clone, Copy, PartialEq, Eq)]
pub(crate) enum Call {
    Get(u32),
    Put(u32),
    Write(u32),
}

/// The one call that isn't answered as it should be.
#[derive(Clone, Copy, PartialEq, Eq)]
pub(crate) enum Broken {
    Nothing,
    Fails(Call),
    FindsNoMemory(Call),
}

/// Files that count their calls, and keep in mind whether each get asked for as many bytes as it has to.
#[derive(Drop)]
pub(crate) struct CountedFiles {
    pub(crate) held: MemFiles,
    gets: u32,
    puts: u32,
    pub(crate) all_asked: bool,
    broken: Broken,
}

impl CountedFiles {
    /// No file, and the call that is broken.
    pub(crate) fn new(alloc: Global, broken: Broken) -> Result<CountedFiles, Memory> {
        let mut held = MemFiles::new(alloc);
        match broken {
            Broken::Fails(Call::Get(k)) => held.fail_get(k)?,
            Broken::Fails(Call::Put(k)) => held.fail_put(k)?,
            _ => (),
        }
        Ok(CountedFiles {
            held,
            gets: 0,
            puts: 0,
            all_asked: true,
            broken,
        })
    }

    /// How many gets and puts were made.
    pub(crate) fn calls(&self) -> usize {
        self.gets as usize + self.puts as usize
    }
}

impl Files for CountedFiles {
    ghost state = { λ f. files_state f.held };

    fn get(&mut self, alloc: Global, name: &str, limit: u64) -> Result<Vec<u8>, GetError>
        ensures ok { IfOk result (λ v.
            Seen files_state GetGives self.old.held self.new.held name.now limit v.items) }
        ensures err { IfErr result (Seen files_state GetRefused self.old.held self.new.held name.now) }
    {
        let call = Call::Get(self.gets);
        self.gets = self.gets.saturating_add(1);
        self.all_asked &= limit == ASKED;
        if self.broken == Broken::FindsNoMemory(call) {
            return Err(GetError::Memory);
        }
        self.held.get(alloc, name, limit)
    }

    fn put(&mut self, name: &str, bytes: &[u8]) -> Result<(), PutError>
        ensures ok { OnOk result (
            Seen files_state PutGives self.old.held self.new.held name.now bytes.now) }
        ensures err { IfErr result (Seen files_state PutRefused self.old.held self.new.held name.now) }
    {
        let call = Call::Put(self.puts);
        self.puts = self.puts.saturating_add(1);
        if self.broken == Broken::FindsNoMemory(call) {
            return Err(PutError::Memory);
        }
        self.held.put(name, bytes)
    }
}

/// A sink that takes three bytes at a time.
#[derive(Drop)]
pub(crate) struct CountedSink {
    pub(crate) taken: MemSink,
    writes: u32,
    refused: u64,
    broken: Broken,
}

impl CountedSink {
    /// Nothing taken, and the write that is broken.
    pub(crate) fn new(alloc: Global, broken: Broken) -> Result<CountedSink, Memory> {
        let mut taken = MemSink::new(alloc, LARGEST);
        if let Broken::Fails(Call::Write(k)) = broken {
            taken.fail_write(k)?;
        }
        Ok(CountedSink {
            taken,
            writes: 0,
            refused: 0,
            broken,
        })
    }
}

impl Sink for CountedSink {
    ghost state = { λ s. record (sink_state s.taken) { refused = s.refused } };

    fn write(&mut self, piece: &[u8]) -> Result<usize, WriteError> {
        let call = Call::Write(self.writes);
        self.writes = self.writes.saturating_add(1);
        let written = if self.broken == Broken::FindsNoMemory(call) {
            Err(WriteError::Memory)
        } else {
            self.taken.write(piece)
        };
        if written == Err(WriteError::Memory) {
            self.refused = self.refused.saturating_add(1);
        }
        written
    }
}
