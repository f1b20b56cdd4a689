use htn_base::Memory;

/// Why a plan is not placed, the first that applies. `NoMatch`: no ground method fits the root, or the line with this id is the first that
/// none fits. `NotExecutable`: the line with this id is the first whose action's condition is false. `GoalFalse`: the goal is false after
/// all actions. `NoPlacement`: no solution shows the plan. `Memory` comes where no memory was to be had.
#[derive(Clone, Copy)]
pub enum PlaceError {
    NoMatch { id: Option<u64> },
    NotExecutable { id: u64 },
    GoalFalse,
    NoPlacement,
    Memory,
}

impl From<Memory> for PlaceError {
    ghost use Rattle.std.specs.Prelude.{◌≡◌};
    ghost use Rattle.plan_placer.specs.declared.place_error.PlaceError.TheVariants.{Memory as OutOfMemory};

    ghost from_gives = { λ _ error. error ≡ OutOfMemory };

    fn from(_error: Memory) -> PlaceError {
        PlaceError::Memory
    }
}
