ghost use Rattle.std.specs.Prelude.{◌≡◌, ◌++◌, OnOk};
ghost use Rattle.slot_encoding.specs.slot_declarations.Frames.{IsFrame};
ghost use Rattle.slot_encoder.specs.Made as made;

use crate::effects::source_effect;
use crate::formulas::source_formula;
use htn_base::{List, Memory};
use order_encoder::push_waiting;
use plan_model::{Effect, Formula, Term};
use slot_encoding::slot_declarations::Frame;
use std::alloc::Global;

/// Puts a source condition at the end, but no empty conjunction.
pub fn push_condition(
    alloc: Global,
    frame: &Frame<'_>,
    front: u32,
    condition: &Formula,
    into: &mut List<Formula>,
) -> Result<(), Memory>
    requires { IsFrame frame.now }
    ensures { OnOk result (into.new ≡ into.old ++ made.condition frame.now front condition.now) }
{
    match condition {
        Formula::And(parts) if parts.len() == 0 => Ok(()),
        _ => into.put(source_formula(alloc, frame, front, condition)),
    }
}

/// Puts a source effect at the end, but no empty conjunction.
pub fn push_change(
    alloc: Global,
    frame: &Frame<'_>,
    front: u32,
    effect: &Effect,
    into: &mut List<Effect>,
) -> Result<(), Memory>
    requires { IsFrame frame.now }
    ensures { OnOk result (into.new ≡ into.old ++ made.change frame.now front effect.now) }
{
    match effect {
        Effect::And(parts) if parts.len() == 0 => Ok(()),
        _ => into.put(source_effect(alloc, frame, front, effect)),
    }
}

/// Puts at the end that no slot comes before the first variable's.
pub(crate) fn push_waits(
    alloc: Global,
    frame: &Frame<'_>,
    depth: u32,
    into: &mut List<Formula>,
) -> Result<(), Memory>
    requires { IsFrame frame.now }
    ensures { OnOk result (into.new ≡ into.old ++ made.waiting frame.now depth) }
{
    push_waiting(
        alloc,
        &frame.basis.order,
        frame.slots,
        &frame.style,
        Term::Var(0),
        depth,
        into,
    )
}
