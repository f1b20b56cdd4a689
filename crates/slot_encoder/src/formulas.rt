ghost use Rattle.std.specs.Prelude.{◌≡◌, map, IfOk};
ghost use Rattle.plan_model.specs.declared.formulas.Formula.TheVariants.{Equal};
ghost use Rattle.slot_encoding.specs.slot_declarations.Frames.{IsFrame};
ghost use Rattle.slot_encoding.specs.slot_declarations.Made as declarations;
ghost use Rattle.slot_encoder.specs.Made as made;

use crate::both::both;
use crate::terms::{moved, source_atom};
use htn_base::{Boxed, List, Memory};
use plan_model::{Formula, Param, Term};
use slot_encoding::slot_declarations::{Frame, source_params};
use std::alloc::Global;

/// A formula of the source as it stands in the printed problem, behind `front` further variables.
#[cycle(formulas)]
pub(crate) fn source_formula(
    alloc: Global,
    frame: &Frame<'_>,
    front: u32,
    formula: &Formula,
) -> Result<Formula, Memory>
    requires { IsFrame frame.now }
    ensures { IfOk result (λ f. f ≡ made.formula frame.now front formula.now) }
{
    match formula {
        Formula::Holds(atom) => source_atom(alloc, frame, front, atom).map(Formula::Holds),
        Formula::Equal(left, right) => equal(frame, front, *left, *right),
        Formula::Not(part) => boxed(alloc, frame, front, part).map(Formula::Not),
        Formula::And(parts) => listed(alloc, frame, front, parts).map(Formula::And),
        Formula::Or(parts) => listed(alloc, frame, front, parts).map(Formula::Or),
        Formula::Imply(premise, conclusion) => {
            let premise = boxed(alloc, frame, front, premise);
            let (premise, conclusion) = both(premise, boxed(alloc, frame, front, conclusion))?;
            Ok(Formula::Imply(premise, conclusion))
        }
        Formula::Forall(params, body) => {
            let (params, body) = bound(alloc, frame, front, params, body)?;
            Ok(Formula::Forall(params, body))
        }
        Formula::Exists(params, body) => {
            let (params, body) = bound(alloc, frame, front, params, body)?;
            Ok(Formula::Exists(params, body))
        }
    }
}

#[cycle(formulas)]
fn boxed(
    alloc: Global,
    frame: &Frame<'_>,
    front: u32,
    formula: &Boxed<Formula>,
) -> Result<Boxed<Formula>, Memory>
    requires { IsFrame frame.now }
    ensures { IfOk result (λ f. f ≡ made.formula frame.now front formula.now) }
{
    let part = source_formula(alloc, frame, front, formula.get())?;
    Boxed::new(alloc, part)
}

#[cycle(formulas)]
fn listed(
    alloc: Global,
    frame: &Frame<'_>,
    front: u32,
    formulas: &List<Formula>,
) -> Result<List<Formula>, Memory>
    requires { IsFrame frame.now }
    ensures { IfOk result (λ fs. fs ≡ map (made.formula frame.now front) formulas.now) }
{
    let parts = formulas.as_slice();
    let mut moved = List::new(alloc);
    for part in parts {
        moved.put(source_formula(alloc, frame, front, part))?;
    }
    Ok(moved)
}

/// That two terms of the source are equal, behind `front` further variables.
pub(crate) fn equal(
    frame: &Frame<'_>,
    front: u32,
    left: Term,
    right: Term,
) -> Result<Formula, Memory>
    ensures { IfOk result (λ f. f ≡ Equal (made.term frame.now front left) (made.term frame.now front right)) }
{
    let left = moved(frame, front, left)?;
    Ok(Formula::Equal(left, moved(frame, front, right)?))
}

/// A quantifier's variables and its part.
#[cycle(formulas)]
fn bound(
    alloc: Global,
    frame: &Frame<'_>,
    front: u32,
    params: &List<Param>,
    body: &Boxed<Formula>,
) -> Result<(List<Param>, Boxed<Formula>), Memory>
    requires { IsFrame frame.now }
    ensures params { IfOk result (λ bound. bound.0 ≡ map (declarations.param frame.now) params.now) }
    ensures body { IfOk result (λ bound. bound.1 ≡ made.formula frame.now front body.now) }
{
    let params = source_params(alloc, frame, params.as_slice());
    both(params, boxed(alloc, frame, front, body))
}
