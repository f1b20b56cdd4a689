ghost use Rattle.std.specs.Prelude.{◌≡◌, ◌<◌, ◌++◌, length, IfOk, OnOk};
ghost use Rattle.slot_encoding.specs.slot_declarations.Frames.{IsFrame};
ghost use Rattle.slot_encoder.specs.Made as made;

use crate::actions::check_predicate;
use crate::atoms::held_work;
use crate::conditions::{push_change, push_condition, push_waits};
use crate::split_action::{Parts, SplitAction};
use crate::splitting::push_freed;
use htn_base::{Memory, number};
use plan_model::{ActionSchema, Effect, Formula, Param};
use slot_encoding::slot_declarations::{
    Frame, named, plus, prefixed, push_params, renamed, slot_param,
};
use std::alloc::Global;

/// The action of source action `a`.
pub(crate) fn encoded_action(
    alloc: Global,
    frame: &Frame<'_>,
    a: u32,
    action: &ActionSchema,
) -> Result<SplitAction, Memory>
    requires { IsFrame frame.now }
    ensures { IfOk result (made.IsSource frame.now a action.now) }
{
    let predicate = plus(frame.basis.numbers.first_action, a)?;
    let params = action.params.as_slice();
    let mut parts = Parts::new(alloc);
    push_work(alloc, frame, predicate, params, &action.pre, &mut parts)?;
    push_change(alloc, frame, 1, &action.eff, &mut parts.effects)?;
    Ok(parts.into_action(renamed(frame, action.name), 0))
}

/// The action of check `j`.
pub(crate) fn encoded_check(alloc: Global, frame: &Frame<'_>, j: u32) -> Result<SplitAction, Memory>
    requires frame { IsFrame frame.now }
    requires some { j < length frame.now.basis.now.checks.methods }
    ensures { IfOk result (made.IsCheck frame.now j) }
{
    let m = frame.basis.checks.methods.as_slice()[j as usize];
    let check = check_predicate(frame, m)?;
    let plan = &frame.compiled.methods.as_slice()[m as usize];
    let schema = &plan.schema;
    let name = prefixed(alloc, frame, b"htn_c_", schema.name)?;
    let params = schema.params.as_slice();
    let mut parts = Parts::new(alloc);
    push_work(alloc, frame, check, params, &schema.pre, &mut parts)?;
    Ok(parts.into_action(name, 0))
}

/// Puts at the ends the parts that a source action and a check have: the slot and the parameters, that the work is held in
/// the slot with nothing before it, its own condition, and that the work goes and its slot is freed.
fn push_work(
    alloc: Global,
    frame: &Frame<'_>,
    predicate: u32,
    params: &[Param],
    pre: &Formula,
    into: &mut Parts,
) -> Result<(), Memory>
    requires { IsFrame frame.now }
    ensures params { OnOk result
        (into.new.params ≡ into.old.params ++ made.work_params frame.now params.now) }
    ensures before { OnOk result (into.new.before ≡ into.old.before ++
        made.work_pre frame.now predicate (length params.now) pre.now) }
    ensures behind { OnOk result (into.new.behind ≡ into.old.behind) }
    ensures effects { OnOk result (into.new.effects ≡ into.old.effects ++
        made.work_eff frame.now predicate (length params.now)) }
{
    let depth = plus(number(params.len())?, 1)?;
    into.params.push(slot_param(named(frame, b"htn_h")))?;
    push_params(frame, params, &mut into.params)?;
    into.before
        .put(held_work(alloc, predicate, depth).map(Formula::Holds))?;
    push_waits(alloc, frame, depth, &mut into.before)?;
    push_condition(alloc, frame, 1, pre, &mut into.before)?;
    into.effects
        .put(held_work(alloc, predicate, depth).map(Effect::Delete))?;
    push_freed(alloc, frame, depth, &mut into.effects)
}
