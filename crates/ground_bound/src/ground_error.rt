use htn_base::List;
use reached_parts::ReachError;

/// A ground method, by its place in the compiled list and with an object for each parameter, and the number of one of its children.
pub struct GroundEdge {
    pub method: u32,
    pub args: List<u32>,
    pub child: u32,
}

impl Drop for GroundEdge {
    fn drop(self) {
        let GroundEdge {
            method: _,
            args: _,
            child: _,
        } = self;
    }
}

/// Why no ground bound is answered.
#[derive(Drop)]
pub enum GroundError {
    /// More than 1,000,000 ground tasks, ground actions and ground methods are reached together.
    TooMany,
    /// There is a bad cycle: the one that is named, its bad edge first and then the walk back.
    Cycle(List<GroundEdge>),
    /// The number is 2^128 or more.
    Past128,
    /// Memory was refused.
    Memory,
}

impl From<htn_base::Memory> for GroundError {
    ghost use Rattle.std.specs.Prelude.{◌≡◌};
    ghost use Rattle.ground_bound.specs.declared.ground_error.GroundError.TheVariants.{Memory as OutOfMemory};

    ghost from_gives = { λ _ error. error ≡ OutOfMemory };

    fn from(_error: htn_base::Memory) -> GroundError {
        GroundError::Memory
    }
}

impl From<ReachError> for GroundError {
    ghost use Rattle.std.specs.Prelude.{◌≡◌};
    ghost use Rattle.ground_bound.specs.NoGroundBound.{of_search};

    ghost from_gives = { λ given error. error ≡ of_search given };

    fn from(error: ReachError) -> GroundError {
        match error {
            ReachError::TooMany => GroundError::TooMany,
            ReachError::Memory => GroundError::Memory,
        }
    }
}
