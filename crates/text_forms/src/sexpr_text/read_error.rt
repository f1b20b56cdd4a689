use htn_base::{Fault, Memory};

/// Why a text isn't read: its least fault, or no memory was to be had.
#[derive(Clone, Copy)]
pub enum ReadError {
    Bad(Fault),
    Memory,
}

impl From<Memory> for ReadError {
    ghost use Rattle.std.specs.Prelude.{◌≡◌};
    ghost use Rattle.text_forms.specs.declared.sexpr_text.read_error.ReadError.TheVariants.{Memory as OutOfMemory};

    ghost from_gives = { λ _ error. error ≡ OutOfMemory };

    fn from(_: Memory) -> ReadError {
        ReadError::Memory
    }
}
