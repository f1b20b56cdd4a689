ghost use Rattle.std.specs.Prelude.{IfOk, IfErr};
ghost use Rattle.outside_io.specs.Sink.{SinkState, WriteTakes, WriteRefused};
ghost use Rattle.outside_io.specs.Seen.{Seen};

use thiserror::Error;

/// Why a write took nothing.
#[derive(Clone, Copy, Debug, PartialEq, Eq, Drop, Error)]
pub enum WriteError {
    /// The write failed, and the count of faults rose.
    #[error("the write failed")]
    Failed,
    /// Memory was refused, and the count of refusals rose.
    #[error("out of memory")]
    Memory,
}

/// What takes bytes one after another.
pub trait Sink {
    ghost state: { Self → SinkState };

    /// Takes the first bytes of a piece, at least one where there is one, and answers how many.
    fn write(&mut self, piece: &[u8]) -> Result<usize, WriteError>
        ensures ok { IfOk result (Seen state WriteTakes self.old self.new piece.now) }
        ensures err { IfErr result (Seen state WriteRefused self.old self.new) };
}
