ghost use Rattle.std.specs.Prelude.{◌≡◌, List, Option, None, IfOk, IfErr, OnOk, OnErr};
ghost use Rattle.outside_io.specs.Calls.{Passed, got, got_none, stored, unsure};
ghost use Rattle.outside_io.specs.Files.{FilesState, GetGives, GetRefused, PutGives, PutRefused};
ghost use Rattle.outside_io.specs.Passed.{with_call};
ghost use Rattle.outside_io.specs.Seen.{Seen};

use htn_base::Memory;
use std::alloc::Global;
use thiserror::Error;

/// Why a get gave no bytes.
#[derive(Clone, Copy, Debug, PartialEq, Eq, Drop, Error)]
pub enum GetError {
    /// The file was not read, and the count of failed gets rose.
    #[error("the file was not read")]
    Failed,
    /// Memory was refused, and nothing changed.
    #[error("out of memory")]
    Memory,
}

impl From<Memory> for GetError {
    ghost use Rattle.std.specs.Prelude.{◌≡◌};
    ghost use Rattle.outside_io.specs.declared.files.GetError.TheVariants.{Memory as OutOfMemory};

    ghost from_gives = { λ _ error. error ≡ OutOfMemory };

    fn from(_: Memory) -> GetError {
        GetError::Memory
    }
}

/// Why a put was not done.
#[derive(Clone, Copy, Debug, PartialEq, Eq, Drop, Error)]
pub enum PutError {
    /// The file was not written whole, and the count of failed puts rose.
    #[error("the file was not written")]
    Failed,
    /// Memory was refused, and nothing changed.
    #[error("out of memory")]
    Memory,
}

impl From<Memory> for PutError {
    ghost use Rattle.std.specs.Prelude.{◌≡◌};
    ghost use Rattle.outside_io.specs.declared.files.PutError.TheVariants.{Memory as OutOfMemory};

    ghost from_gives = { λ _ error. error ≡ OutOfMemory };

    fn from(_: Memory) -> PutError {
        PutError::Memory
    }
}

/// Files that are named by texts, and are read and written whole.
pub trait Files {
    ghost state: { Self → FilesState };

    // The calls and what they were answered, where they are told.
    ghost passed: { Self → Option (List Passed) } = { λ _. None };

    /// Gives the first `limit` bytes of the named file, all of them if there are fewer.
    fn get(&mut self, alloc: Global, name: &str, limit: u64) -> Result<Vec<u8>, GetError>
        ensures ok { IfOk result (λ v.
            Seen state GetGives self.old self.new name.now limit v.items) }
        ensures err { IfErr result (Seen state GetRefused self.old self.new name.now) }
        ensures passed { IfOk result (λ v.
            passed self.new ≡ with_call (passed self.old) (got name.now limit v.items)) }
        ensures not_passed { OnErr result (
            passed self.new ≡ with_call (passed self.old) (got_none name.now)) };

    /// Makes the named file hold exactly these bytes.
    fn put(&mut self, name: &str, bytes: &[u8]) -> Result<(), PutError>
        ensures ok { OnOk result (Seen state PutGives self.old self.new name.now bytes.now) }
        ensures err { IfErr result (Seen state PutRefused self.old self.new name.now) }
        ensures passed { OnOk result (
            passed self.new ≡ with_call (passed self.old) (stored name.now bytes.now)) }
        ensures not_passed { OnErr result (
            passed self.new ≡ with_call (passed self.old) (unsure name.now bytes.now)) };
}
