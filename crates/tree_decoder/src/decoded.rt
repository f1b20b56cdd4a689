use decoding::Why;
use htn_base::{List, Memory};
use tree_core::Scheduled;

/// A solution as a list of steps spells it: its tree with the order of its schedule, and the slots of the nodes in that order,
/// which count from 1.
pub struct Decoded {
    pub run: Scheduled,
    pub slots: List<u32>,
}

impl Drop for Decoded {
    fn drop(self) {
        let Decoded { run: _, slots: _ } = self;
    }
}

/// Why a list of steps gives no tree. `NotAPlan` comes exactly where it spells no solution: it fails at this step, counted from
/// 1, for this first cause; what is left at the end counts as a further step. `Memory` comes where no memory was to be had.
#[derive(Clone, Copy, PartialEq)]
pub enum DecodeError {
    NotAPlan { step: u32, why: Why },
    Memory,
}

impl From<Memory> for DecodeError {
    ghost use Rattle.std.specs.Prelude.{◌≡◌};
    ghost use Rattle.tree_decoder.specs.declared.decoded.DecodeError.TheVariants.{Memory as OutOfMemory};

    ghost from_gives = { λ _ error. error ≡ OutOfMemory };

    fn from(_error: Memory) -> DecodeError {
        DecodeError::Memory
    }
}
