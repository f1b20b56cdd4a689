use htn_base::{List, Memory};

/// A ground method, by its number, with the numbers of the objects that its parameters stand for.
pub struct MethodFit {
    pub method: u32,
    pub values: List<u32>,
}

impl Drop for MethodFit {
    fn drop(self) {
        let MethodFit {
            method: _,
            values: _,
        } = self;
    }
}

/// The ground methods that fit the lines of a plan: that of the root, and those of the decomposed tasks in the order of their lines.
pub struct Fits {
    pub root: MethodFit,
    pub splits: List<MethodFit>,
}

impl Drop for Fits {
    fn drop(self) {
        let Fits { root: _, splits: _ } = self;
    }
}

/// Why lines are not fitted. `NoMatch`: no ground method fits the root, or the root is fitted and this is the first line, by its place
/// among those of decomposed tasks, that none fits. `Memory` comes where no memory was to be had.
#[derive(Clone, Copy)]
pub enum FitError {
    NoMatch { line: Option<u32> },
    Memory,
}

impl From<Memory> for FitError {
    ghost use Rattle.std.specs.Prelude.{◌≡◌};
    ghost use Rattle.line_fits.specs.declared.fitted.FitError.TheVariants.{Memory as OutOfMemory};

    ghost from_gives = { λ _ error. error ≡ OutOfMemory };

    fn from(_error: Memory) -> FitError {
        FitError::Memory
    }
}
