use htn_base::Memory;

/// Why a run isn't spelled. `NeedsBound` comes exactly where its width, which is `needed`, is greater than the number of slots.
/// `Memory` comes where no memory was to be had.
#[derive(Clone, Copy, PartialEq)]
pub enum SpellError {
    NeedsBound { needed: u32 },
    Memory,
}

impl From<Memory> for SpellError {
    ghost use Rattle.std.specs.Prelude.{◌≡◌};
    ghost use Rattle.slot_speller.specs.declared.spell_error.SpellError.TheVariants.{Memory as OutOfMemory};

    ghost from_gives = { λ _ error. error ≡ OutOfMemory };

    fn from(_error: Memory) -> SpellError {
        SpellError::Memory
    }
}
