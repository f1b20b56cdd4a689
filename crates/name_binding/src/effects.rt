ghost use Rattle.std.specs.Prelude.{◌≡◌, ◌++◌, IfOk, OnOk};
ghost use Rattle.name_binding.specs.Entered.{variables_of};
ghost use Rattle.name_binding.specs.Spots.{noted};
ghost use Rattle.name_binding.specs.Typed.{params_bound, params_faults};
ghost use Rattle.name_binding.specs.Effects.{effect_bound, effects_bound, effect_faults, effects_faults};

use crate::atoms::atom_of;
use crate::faults::Faults;
use crate::formulas::formula_of;
use crate::known::Known;
use crate::typed::params_of;
use crate::variables::Variables;
use gd_reader::{RawEffect, RawParams};
use htn_base::{Boxed, List, Memory};
use plan_model::{Effect, Param};
use std::alloc::Global;

/// What an effect stands for where these variables are in force, which they are again behind the call. A quantifier's variables are
/// in force in its part. Faults: those of its atoms and conditions, and 11 where no type has the name that stands at a variable.
#[cycle(effect)]
pub fn effect_of(
    alloc: Global,
    known: &Known,
    scope: &mut Variables,
    e: &RawEffect,
    faults: &mut Faults,
) -> Result<Effect, Memory>
    ensures bound { IfOk result (λ bound. bound ≡ effect_bound known.now scope.old e.now) }
    ensures faults { OnOk result
        (faults.new.least ≡ noted faults.old.least (effect_faults known.now scope.old e.now)) }
    ensures kept { scope.new ≡ scope.old }
{
    match e {
        RawEffect::Add(atom) => Ok(Effect::Add(atom_of(alloc, known, scope, atom, faults)?)),
        RawEffect::Delete(atom) => Ok(Effect::Delete(atom_of(alloc, known, scope, atom, faults)?)),
        RawEffect::And(parts) => Ok(Effect::And(parts_of(alloc, known, scope, parts, faults)?)),
        RawEffect::Forall(vars, part) => {
            let (params, part) = quantified_of(alloc, known, scope, vars, part, faults)?;
            Ok(Effect::Forall(params, part))
        }
        RawEffect::When(condition, part) => {
            let condition = formula_of(alloc, known, scope, condition, faults)?;
            let part = part_of(alloc, known, scope, part, faults)?;
            Ok(Effect::When(condition, part))
        }
    }
}

#[cycle(effect)]
fn part_of(
    alloc: Global,
    known: &Known,
    scope: &mut Variables,
    part: &Boxed<RawEffect>,
    faults: &mut Faults,
) -> Result<Boxed<Effect>, Memory>
    ensures bound { IfOk result (λ bound. bound ≡ effect_bound known.now scope.old part.now) }
    ensures faults { OnOk result
        (faults.new.least ≡ noted faults.old.least (effect_faults known.now scope.old part.now)) }
    ensures kept { scope.new ≡ scope.old }
{
    let bound = effect_of(alloc, known, scope, part.get(), faults)?;
    Boxed::new(alloc, bound)
}

#[cycle(effect)]
fn parts_of(
    alloc: Global,
    known: &Known,
    scope: &mut Variables,
    parts: &List<RawEffect>,
    faults: &mut Faults,
) -> Result<List<Effect>, Memory>
    ensures bound { IfOk result (λ bound. bound ≡ effects_bound known.now scope.old parts.now) }
    ensures faults { OnOk result
        (faults.new.least ≡ noted faults.old.least (effects_faults known.now scope.old parts.now)) }
    ensures kept { scope.new ≡ scope.old }
{
    let parts = parts.as_slice();
    let mut bound = List::new(alloc);
    for part in parts {
        bound.put(effect_of(alloc, known, scope, part, faults))?;
    }
    Ok(bound)
}

// A quantifier's variables, and its part, in which they are in force.
#[cycle(effect)]
fn quantified_of(
    alloc: Global,
    known: &Known,
    scope: &mut Variables,
    vars: &RawParams,
    part: &Boxed<RawEffect>,
    faults: &mut Faults,
) -> Result<(List<Param>, Boxed<Effect>), Memory>
    ensures params { IfOk result (λ bound. bound.0 ≡ params_bound known.now.types vars.now) }
    ensures part { IfOk result
        (λ bound. bound.1 ≡ effect_bound known.now (scope.old ++ variables_of vars.now) part.now) }
    ensures faults { OnOk result (faults.new.least ≡ noted faults.old.least
        (params_faults known.now.types vars.now
        ++ effect_faults known.now (scope.old ++ variables_of vars.now) part.now)) }
    ensures kept { scope.new ≡ scope.old }
{
    let params = params_of(alloc, &known.types, vars, faults)?;
    let outer = scope.len();
    scope.enter_all(vars.as_slice())?;
    let bound = part_of(alloc, known, scope, part, faults);
    scope.leave(outer);
    Ok((params, bound?))
}
