ghost use Rattle.std.specs.Prelude.{◌≡◌, ℕ, ◌++◌, [], ◌∷◌, map, OnOk};
ghost use Rattle.name_binding.specs.Places.{first_place};
ghost use Rattle.name_binding.specs.Spots.{noted};
ghost use Rattle.hddl_bind.specs.Seconds.{if_known, seconds};

use gd_reader::RawParam;
use hddl_reader::{RawHead, RawMethod};
use htn_base::{Memory, Name};
use name_binding::{Faults, Places};

/// What declares a name: the name, and the offset of its word.
pub trait Declares {
    ghost number: { Self → ℕ };

    ghost offset: { Self → ℕ };

    /// The declared name, and the offset of its word.
    fn declared(&self) -> (Name, u32)
        ensures number { result.0.number ≡ number self.now }
        ensures offset { result.1 ≡ offset self.now };
}

/// Declares these names behind those of earlier lists. Of each that stands in front already, in this list or an earlier one, the
/// fault is noted, at its word.
pub fn seconds_of<T: Declares>(
    known: &mut Places,
    items: &[T],
    faults: &mut Faults,
) -> Result<(), Memory>
    ensures declared { OnOk result (known.new ≡ known.old ++ map T.number items.now) }
    ensures faults { OnOk result (faults.new.least
        ≡ noted faults.old.least (seconds T.number T.offset known.old items.now)) }
{
    for item in items {
        let (name, at) = item.declared();
        declare(known, name, at, faults)?;
    }
    Ok(())
}

/// Declares a name behind the others. Where it stands among them already, the fault is noted.
pub fn declare(known: &mut Places, name: Name, at: u32, faults: &mut Faults) -> Result<(), Memory>
    ensures declared { OnOk result (known.new ≡ known.old ++ name.number ∷ []) }
    ensures faults { faults.new.least
        ≡ noted faults.old.least (if_known (first_place name.number known.old) at) }
{
    if known.get(name).is_some() {
        faults.note(at, 10);
    }
    known.declare(name)
}

impl Declares for RawHead {
    ghost number = { λ head. head.name.name.number };

    ghost offset = { λ head. head.name.at };

    fn declared(&self) -> (Name, u32) {
        (self.name.name, self.name.at)
    }
}

impl Declares for RawMethod {
    ghost number = { λ method. method.head.name.name.number };

    ghost offset = { λ method. method.head.name.at };

    fn declared(&self) -> (Name, u32) {
        (self.head.name.name, self.head.name.at)
    }
}

impl Declares for RawParam {
    ghost number = { λ param. param.name.number };

    ghost offset = { λ param. param.at };

    fn declared(&self) -> (Name, u32) {
        (self.name, self.at)
    }
}
