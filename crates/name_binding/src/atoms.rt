ghost use Rattle.std.specs.Prelude.{◌≡◌, IfOk, OnOk};
ghost use Rattle.name_binding.specs.Spots.{noted};
ghost use Rattle.name_binding.specs.Heads.{declared};
ghost use Rattle.name_binding.specs.Atoms.{place_of, head_faults, atom_bound, atom_faults};

use crate::faults::Faults;
use crate::heads::Heads;
use crate::known::Known;
use crate::terms::terms_of;
use crate::variables::Variables;
use gd_reader::{RawAtom, RawTerm};
use htn_base::Memory;
use plan_model::Atom;
use std::alloc::Global;

/// What an atom stands for. Faults: 13 where no predicate has the name, 17 where it has another number of parameters, and those
/// of the terms.
pub fn atom_of(
    alloc: Global,
    known: &Known,
    scope: &Variables,
    atom: &RawAtom,
    faults: &mut Faults,
) -> Result<Atom, Memory>
    ensures bound { IfOk result (λ bound. bound ≡ atom_bound known.now scope.now atom.now) }
    ensures faults { OnOk result
        (faults.new.least ≡ noted faults.old.least (atom_faults known.now scope.now atom.now)) }
{
    let predicate = predicate_of(&known.predicates, atom.head, atom.args.len(), faults);
    let args = terms_of(alloc, &known.objects, scope, &atom.args, faults)?;
    Ok(Atom { predicate, args })
}

/// The number of the predicate of this name, which is applied to so many terms.
pub(crate) fn predicate_of(
    predicates: &Heads,
    head: RawTerm,
    count: usize,
    faults: &mut Faults,
) -> u32
    ensures place { result ≡ place_of (declared head.name.number predicates.now) }
    ensures faults { faults.new.least ≡ noted faults.old.least
        (head_faults head.at count (declared head.name.number predicates.now)) }
{
    match predicates.get(head.name) {
        None => {
            faults.note(head.at, 13);
            0
        }
        Some(predicate) => {
            if predicate.arity as usize != count {
                faults.note(head.at, 17);
            }
            predicate.place
        }
    }
}
