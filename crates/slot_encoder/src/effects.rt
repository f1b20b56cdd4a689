ghost use Rattle.std.specs.Prelude.{◌≡◌, map, IfOk};
ghost use Rattle.slot_encoding.specs.slot_declarations.Frames.{IsFrame};
ghost use Rattle.slot_encoder.specs.Made as made;

use crate::both::both;
use crate::formulas::source_formula;
use crate::terms::source_atom;
use htn_base::{Boxed, List, Memory};
use plan_model::Effect;
use slot_encoding::slot_declarations::{Frame, source_params};
use std::alloc::Global;

/// An effect of the source as it stands in the printed problem, behind `front` further variables.
#[cycle(effects)]
pub(crate) fn source_effect(
    alloc: Global,
    frame: &Frame<'_>,
    front: u32,
    effect: &Effect,
) -> Result<Effect, Memory>
    requires { IsFrame frame.now }
    ensures { IfOk result (λ e. e ≡ made.effect frame.now front effect.now) }
{
    match effect {
        Effect::Add(atom) => source_atom(alloc, frame, front, atom).map(Effect::Add),
        Effect::Delete(atom) => source_atom(alloc, frame, front, atom).map(Effect::Delete),
        Effect::And(parts) => listed(alloc, frame, front, parts).map(Effect::And),
        Effect::Forall(params, body) => {
            let params = source_params(alloc, frame, params.as_slice());
            let (params, body) = both(params, boxed(alloc, frame, front, body))?;
            Ok(Effect::Forall(params, body))
        }
        Effect::When(condition, body) => {
            let condition = source_formula(alloc, frame, front, condition);
            let (condition, body) = both(condition, boxed(alloc, frame, front, body))?;
            Ok(Effect::When(condition, body))
        }
    }
}

#[cycle(effects)]
fn boxed(
    alloc: Global,
    frame: &Frame<'_>,
    front: u32,
    effect: &Boxed<Effect>,
) -> Result<Boxed<Effect>, Memory>
    requires { IsFrame frame.now }
    ensures { IfOk result (λ e. e ≡ made.effect frame.now front effect.now) }
{
    let part = source_effect(alloc, frame, front, effect.get())?;
    Boxed::new(alloc, part)
}

#[cycle(effects)]
fn listed(
    alloc: Global,
    frame: &Frame<'_>,
    front: u32,
    effects: &List<Effect>,
) -> Result<List<Effect>, Memory>
    requires { IsFrame frame.now }
    ensures { IfOk result (λ es. es ≡ map (made.effect frame.now front) effects.now) }
{
    let parts = effects.as_slice();
    let mut moved = List::new(alloc);
    for part in parts {
        moved.put(source_effect(alloc, frame, front, part))?;
    }
    Ok(moved)
}
