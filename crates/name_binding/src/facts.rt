ghost use Rattle.std.specs.Prelude.{◌≡◌, [], IfOk, OnOk};
ghost use Rattle.name_binding.specs.Spots.{noted};
ghost use Rattle.name_binding.specs.Terms.{term_faults};
ghost use Rattle.plan_model.specs.Facts.{atom_of};
ghost use Rattle.name_binding.specs.Atoms.{atom_faults};
ghost use Rattle.name_binding.specs.Facts.{object_bound, fact_bound};

use crate::atoms::predicate_of;
use crate::faults::Faults;
use crate::known::Known;
use crate::places::Places;
use crate::terms::found_or_noted;
use gd_reader::RawTerm;
use htn_base::Memory;

/// What a fact of this name and these terms stands for, where no variable is in force: its predicate, and its objects in place of
/// what stood in `args`. Faults: those of the atom, so 16 at each variable.
pub fn fact_of(
    known: &Known,
    head: RawTerm,
    terms: &[RawTerm],
    args: &mut Vec<u32>,
    faults: &mut Faults,
) -> Result<u32, Memory>
    ensures bound { IfOk result (λ predicate. atom_of predicate args.new.items
        ≡ fact_bound known.now (record { head = head; args = terms.now })) }
    ensures faults { OnOk result (faults.new.least
        ≡ noted faults.old.least (atom_faults known.now [] (record { head = head; args = terms.now }))) }
{
    let predicate = predicate_of(&known.predicates, head, terms.len(), faults);
    args.clear();
    for term in terms {
        args.push(object_of(&known.objects, *term, faults))?;
    }
    Ok(predicate)
}

/// The object of this name.
fn object_of(objects: &Places, term: RawTerm, faults: &mut Faults) -> u32
    ensures bound { result ≡ object_bound objects.now term }
    ensures faults { faults.new.least ≡ noted faults.old.least (term_faults objects.now [] term) }
{
    if term.variable {
        faults.note(term.at, 16);
        return 0;
    }
    found_or_noted(objects.get(term.name), 15, term.at, faults)
}
