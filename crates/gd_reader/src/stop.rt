use std::alloc::AllocFailed;

/// Where reading stops: the tokens end too early, or a token departs, with its code and offset.
#[derive(Clone, Copy)]
pub enum Stop {
    Ends,
    Departs(u16, u32),
}

/// Why a part isn't read.
#[derive(Clone, Copy)]
pub enum Failure {
    Memory,
    At(Stop),
}

impl From<htn_base::Memory> for Failure {
    ghost use Rattle.std.specs.Prelude.{◌≡◌};
    ghost use Rattle.gd_reader.specs.declared.stop.Failure.TheVariants.{Memory as OutOfMemory};

    ghost from_gives = { λ _ failure. failure ≡ OutOfMemory };

    fn from(_: htn_base::Memory) -> Failure {
        Failure::Memory
    }
}

impl<T: Drop> From<AllocFailed<T>> for Failure {
    ghost use Rattle.std.specs.Prelude.{◌≡◌};
    ghost use Rattle.gd_reader.specs.declared.stop.Failure.TheVariants.{Memory as OutOfMemory};

    ghost from_gives = { λ _ failure. failure ≡ OutOfMemory };

    fn from(_: AllocFailed<T>) -> Failure {
        Failure::Memory
    }
}
