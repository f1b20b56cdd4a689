ghost use Rattle.std.specs.Prelude.{◌≡◌, ◌++◌, IfOk, OnOk};
ghost use Rattle.name_binding.specs.Entered.{variables_of};
ghost use Rattle.name_binding.specs.Spots.{noted};
ghost use Rattle.name_binding.specs.Typed.{params_bound, params_faults};
ghost use Rattle.name_binding.specs.Formulas.{formula_bound, formulas_bound, formula_faults, formulas_faults};

use crate::atoms::atom_of;
use crate::faults::Faults;
use crate::known::Known;
use crate::terms::term_of;
use crate::typed::params_of;
use crate::variables::Variables;
use gd_reader::{RawFormula, RawParams};
use htn_base::{Boxed, List, Memory};
use plan_model::{Formula, Param};
use std::alloc::Global;

/// What a formula stands for where these variables are in force, which they are again behind the call. A quantifier's variables are
/// in force in its part. Faults: those of its atoms and terms, and 11 where no type has the name that stands at a variable.
#[cycle(formula)]
pub fn formula_of(
    alloc: Global,
    known: &Known,
    scope: &mut Variables,
    f: &RawFormula,
    faults: &mut Faults,
) -> Result<Formula, Memory>
    ensures bound { IfOk result (λ bound. bound ≡ formula_bound known.now scope.old f.now) }
    ensures faults { OnOk result
        (faults.new.least ≡ noted faults.old.least (formula_faults known.now scope.old f.now)) }
    ensures kept { scope.new ≡ scope.old }
{
    match f {
        RawFormula::Holds(atom) => Ok(Formula::Holds(atom_of(alloc, known, scope, atom, faults)?)),
        RawFormula::Equal(left, right) => {
            let left = term_of(&known.objects, scope, *left, faults);
            let right = term_of(&known.objects, scope, *right, faults);
            Ok(Formula::Equal(left, right))
        }
        RawFormula::Not(part) => Ok(Formula::Not(part_of(alloc, known, scope, part, faults)?)),
        RawFormula::And(parts) => Ok(Formula::And(parts_of(alloc, known, scope, parts, faults)?)),
        RawFormula::Or(parts) => Ok(Formula::Or(parts_of(alloc, known, scope, parts, faults)?)),
        RawFormula::Imply(premise, conclusion) => {
            let premise = part_of(alloc, known, scope, premise, faults)?;
            let conclusion = part_of(alloc, known, scope, conclusion, faults)?;
            Ok(Formula::Imply(premise, conclusion))
        }
        RawFormula::Forall(vars, part) => {
            let (params, part) = quantified_of(alloc, known, scope, vars, part, faults)?;
            Ok(Formula::Forall(params, part))
        }
        RawFormula::Exists(vars, part) => {
            let (params, part) = quantified_of(alloc, known, scope, vars, part, faults)?;
            Ok(Formula::Exists(params, part))
        }
    }
}

#[cycle(formula)]
fn part_of(
    alloc: Global,
    known: &Known,
    scope: &mut Variables,
    part: &Boxed<RawFormula>,
    faults: &mut Faults,
) -> Result<Boxed<Formula>, Memory>
    ensures bound { IfOk result (λ bound. bound ≡ formula_bound known.now scope.old part.now) }
    ensures faults { OnOk result
        (faults.new.least ≡ noted faults.old.least (formula_faults known.now scope.old part.now)) }
    ensures kept { scope.new ≡ scope.old }
{
    let bound = formula_of(alloc, known, scope, part.get(), faults)?;
    Boxed::new(alloc, bound)
}

#[cycle(formula)]
fn parts_of(
    alloc: Global,
    known: &Known,
    scope: &mut Variables,
    parts: &List<RawFormula>,
    faults: &mut Faults,
) -> Result<List<Formula>, Memory>
    ensures bound { IfOk result (λ bound. bound ≡ formulas_bound known.now scope.old parts.now) }
    ensures faults { OnOk result (faults.new.least
        ≡ noted faults.old.least (formulas_faults known.now scope.old parts.now)) }
    ensures kept { scope.new ≡ scope.old }
{
    let parts = parts.as_slice();
    let mut bound = List::new(alloc);
    for part in parts {
        bound.put(formula_of(alloc, known, scope, part, faults))?;
    }
    Ok(bound)
}

// A quantifier's variables, and its part, in which they are in force.
#[cycle(formula)]
fn quantified_of(
    alloc: Global,
    known: &Known,
    scope: &mut Variables,
    vars: &RawParams,
    part: &Boxed<RawFormula>,
    faults: &mut Faults,
) -> Result<(List<Param>, Boxed<Formula>), Memory>
    ensures params { IfOk result (λ bound. bound.0 ≡ params_bound known.now.types vars.now) }
    ensures part { IfOk result
        (λ bound. bound.1 ≡ formula_bound known.now (scope.old ++ variables_of vars.now) part.now) }
    ensures faults { OnOk result (faults.new.least ≡ noted faults.old.least
        (params_faults known.now.types vars.now
        ++ formula_faults known.now (scope.old ++ variables_of vars.now) part.now)) }
    ensures kept { scope.new ≡ scope.old }
{
    let params = params_of(alloc, &known.types, vars, faults)?;
    let outer = scope.len();
    scope.enter_all(vars.as_slice())?;
    let bound = part_of(alloc, known, scope, part, faults);
    scope.leave(outer);
    Ok((params, bound?))
}
