/// Why a search for what is reached is given up.
#[derive(Drop)]
pub enum ReachError {
    /// More than 1,000,000 ground tasks, ground actions and ground methods are reached together.
    TooMany,
    /// Memory was refused.
    Memory,
}

impl From<htn_base::Memory> for ReachError {
    ghost use Rattle.std.specs.Prelude.{◌≡◌};
    ghost use Rattle.reached_parts.specs.declared.reach_error.ReachError.TheVariants.{Memory as OutOfMemory};

    ghost from_gives = { λ _ error. error ≡ OutOfMemory };

    fn from(_error: htn_base::Memory) -> ReachError {
        ReachError::Memory
    }
}
