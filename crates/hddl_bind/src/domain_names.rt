ghost use Rattle.std.specs.Prelude.{◌≡◌, IfOk, OnOk};
ghost use Rattle.name_binding.specs.Spots.{noted};
ghost use Rattle.hddl_bind.specs.Callables.{declared};
ghost use Rattle.hddl_bind.specs.DeclaredNames.{known_in, second_names};

use crate::callables::Callables;
use crate::declared::{note_seconds, predicates_declared};
use crate::seconds::seconds_of;
use hddl_reader::RawDomain;
use htn_base::Memory;
use name_binding::{Faults, Known, Places, TypeTable};
use std::alloc::Global;

/// The names that a domain declares, by which its schemas and its problems are bound. The objects are its constants.
pub struct DomainNames {
    pub known: Known,
    pub callables: Callables,
}

impl Drop for DomainNames {
    fn drop(self) {
        let DomainNames {
            known: _,
            callables: _,
        } = self;
    }
}

/// The names that a domain with these types declares. A name that is declared again is a fault of code 10: among the constants, the
/// predicates and the methods, and among tasks and actions together.
pub fn names_of(
    alloc: Global,
    types: TypeTable,
    d: &RawDomain,
    faults: &mut Faults,
) -> Result<DomainNames, Memory>
    ensures known { IfOk result (λ names. names.known ≡ known_in types d.now) }
    ensures callables { IfOk result
        (λ names. names.callables ≡ declared d.now.tasks d.now.actions) }
    ensures faults { OnOk result
        (faults.new.least ≡ noted faults.old.least (second_names d.now)) }
{
    note_seconds(alloc, d.methods.as_slice(), faults)?;
    let mut objects = Places::new(alloc);
    seconds_of(&mut objects, d.constants.as_slice(), faults)?;
    let predicates = predicates_declared(alloc, d.predicates.as_slice(), faults)?;
    let callables = Callables::new(alloc, d.tasks.as_slice(), d.actions.as_slice())?;
    callables.seconds(faults);
    let known = Known {
        objects,
        predicates,
        types,
    };
    Ok(DomainNames { known, callables })
}
