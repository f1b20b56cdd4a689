ghost use Rattle.std.specs.Prelude.{◌≡◌};
ghost use Rattle.hddl_bind.specs.Judged.{judged_by};

use htn_base::{Fault, Memory};
use name_binding::Faults;

/// Why a text is not bound: its least fault of names, by offset and then by code, or want of memory.
#[derive(Clone, Copy)]
pub enum BindError {
    Bad(Fault),
    Memory,
}

impl From<Memory> for BindError {
    ghost use Rattle.std.specs.Prelude.{◌≡◌};
    ghost use Rattle.hddl_bind.specs.declared.errors.BindError.TheVariants.{Memory as OutOfMemory};

    ghost from_gives = { λ _ error. error ≡ OutOfMemory };

    fn from(_: Memory) -> BindError {
        BindError::Memory
    }
}

/// What was bound where no fault was noted; else the least fault, of the file at this place.
pub fn judged<T: Drop>(bound: T, faults: Faults, file: u8) -> Result<T, BindError>
    ensures judged { result ≡ judged_by file bound faults.least }
{
    match faults.least {
        None => Ok(bound),
        Some(spot) => {
            drop(bound);
            Err(BindError::Bad(Fault {
                code: spot.code,
                file,
                at: spot.at,
            }))
        }
    }
}
