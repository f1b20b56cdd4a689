ghost use Rattle.std.specs.Prelude.{◌≡◌, IfOk, OnOk, unwrap_or};
ghost use Rattle.name_binding.specs.Spots.{noted};
ghost use Rattle.name_binding.specs.Terms.{term_bound, term_faults, terms_bound, terms_faults, unless_found};

use crate::faults::Faults;
use crate::places::Places;
use crate::variables::Variables;
use gd_reader::RawTerm;
use htn_base::{List, Memory};
use plan_model::Term;
use std::alloc::Global;

/// What a written term stands for: the innermost variable in force of its name, or the first object of its name. Where there is
/// none, its fault is noted: 16 at a variable, 15 at an object.
pub fn term_of(objects: &Places, scope: &Variables, term: RawTerm, faults: &mut Faults) -> Term
    ensures bound { result ≡ term_bound objects.now scope.now term }
    ensures faults { faults.new.least
        ≡ noted faults.old.least (term_faults objects.now scope.now term) }
{
    if term.variable {
        Term::Var(found_or_noted(scope.get(term.name), 16, term.at, faults))
    } else {
        Term::Obj(found_or_noted(objects.get(term.name), 15, term.at, faults))
    }
}

/// What was found; else 0, and the fault is noted.
pub fn found_or_noted(found: Option<u32>, code: u16, at: u32, faults: &mut Faults) -> u32
    ensures found { result ≡ unwrap_or found 0 }
    ensures faults { faults.new.least ≡ noted faults.old.least (unless_found code at found) }
{
    match found {
        Some(number) => number,
        None => {
            faults.note(at, code);
            0
        }
    }
}

/// What written terms stand for.
pub fn terms_of(
    alloc: Global,
    objects: &Places,
    scope: &Variables,
    terms: &List<RawTerm>,
    faults: &mut Faults,
) -> Result<List<Term>, Memory>
    ensures bound { IfOk result (λ bound. bound ≡ terms_bound objects.now scope.now terms.now) }
    ensures faults { OnOk result
        (faults.new.least ≡ noted faults.old.least (terms_faults objects.now scope.now terms.now)) }
{
    let mut bound = List::new(alloc);
    for term in terms.as_slice() {
        bound.push(term_of(objects, scope, *term, faults))?;
    }
    Ok(bound)
}
