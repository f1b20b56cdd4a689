ghost use Rattle.std.specs.Prelude.{◌≡◌, ◌<◌, length, IfOk};
ghost use Rattle.std.specs.Option.{option_copied};
ghost use Rattle.slot_encoding.specs.slot_declarations.Frames.{IsFrame};
ghost use Rattle.stack_encoder.specs.Pieces.{held_from_1};
ghost use Rattle.stack_encoder.specs.Made as made;

use crate::atoms::{falling_params, push_at_tip, push_falling};
use htn_base::{List, Memory, Name, number};
use plan_model::{ActionSchema, Atom, Effect, Formula, Param, Term};
use slot_encoder::{check_predicate, push_change, push_condition};
use slot_encoding::slot_declarations::{Frame, plus, prefixed, renamed};
use std::alloc::Global;

/// The action of source action `a`.
pub(crate) fn stack_action(
    alloc: Global,
    frame: &Frame<'_>,
    a: u32,
    action: &ActionSchema,
) -> Result<ActionSchema, Memory>
    requires { IsFrame frame.now }
    ensures { IfOk result (λ s. s ≡ made.source_action frame.now a action.now) }
{
    let predicate = plus(frame.basis.numbers.first_action, a)?;
    let params = action.params.as_slice();
    let name = renamed(frame, action.name);
    tip_action(
        alloc,
        frame,
        name,
        predicate,
        params,
        &action.pre,
        Some(&action.eff),
    )
}

/// The action of check `j`.
pub(crate) fn stack_check(alloc: Global, frame: &Frame<'_>, j: u32) -> Result<ActionSchema, Memory>
    requires frame { IsFrame frame.now }
    requires some { j < length frame.now.basis.now.checks.methods }
    ensures { IfOk result (made.IsCheck frame.now j) }
{
    let m = frame.basis.checks.methods.as_slice()[j as usize];
    let check = check_predicate(frame, m)?;
    let plan = &frame.compiled.methods.as_slice()[m as usize];
    let schema = &plan.schema;
    let name = prefixed(alloc, frame, b"htn_c_", schema.name)?;
    let params = schema.params.as_slice();
    tip_action(alloc, frame, name, check, params, &schema.pre, None)
}

/// The action of this name for what is held with these parameters, in whose place nothing comes.
fn tip_action(
    alloc: Global,
    frame: &Frame<'_>,
    name: Name,
    predicate: u32,
    params: &[Param],
    pre: &Formula,
    change: Option<&Effect>,
) -> Result<ActionSchema, Memory>
    requires { IsFrame frame.now }
    ensures { IfOk result
        (λ a. a ≡ made.tip_action frame.now name predicate params.now pre.now (option_copied change.entry)) }
{
    let count = number(params.len())?;
    let condition = tip_condition(alloc, frame, predicate, count, pre)?;
    let effects = tip_effects(alloc, frame, predicate, count, change)?;
    Ok(ActionSchema {
        name,
        params: falling_params(alloc, frame, params)?,
        pre: Formula::And(condition),
        eff: Effect::And(effects),
    })
}

/// It is held at the tip, and its own condition holds.
fn tip_condition(
    alloc: Global,
    frame: &Frame<'_>,
    predicate: u32,
    count: u32,
    pre: &Formula,
) -> Result<List<Formula>, Memory>
    requires { IsFrame frame.now }
    ensures { IfOk result (λ fs. fs ≡ made.tip_condition frame.now predicate count pre.now) }
{
    let mut into = List::new(alloc);
    push_at_tip(
        alloc,
        frame,
        held_at_tip(alloc, predicate, count),
        &mut into,
    )?;
    push_condition(alloc, frame, 2, pre, &mut into)?;
    Ok(into)
}

/// It goes, the cell below is the tip, and what changes besides.
fn tip_effects(
    alloc: Global,
    frame: &Frame<'_>,
    predicate: u32,
    count: u32,
    change: Option<&Effect>,
) -> Result<List<Effect>, Memory>
    requires { IsFrame frame.now }
    ensures { IfOk result (λ es. es ≡ made.tip_effects frame.now predicate count (option_copied change.entry)) }
{
    let mut into = List::new(alloc);
    push_falling(
        alloc,
        frame,
        held_at_tip(alloc, predicate, count),
        &mut into,
    )?;
    if let Some(change) = change {
        push_change(alloc, frame, 2, change, &mut into)?;
    }
    Ok(into)
}

/// The atom that the cell of variable 1 holds what has so many parameters, which are the variables behind it.
fn held_at_tip(alloc: Global, predicate: u32, count: u32) -> Result<Atom, Memory>
    ensures { IfOk result (λ a. a ≡ held_from_1 predicate count) }
{
    let mut args = List::new(alloc);
    args.push(Term::Var(1))?;
    for k in 0..count {
        args.push(Term::Var(plus(k, 2)?))?;
    }
    Ok(Atom { predicate, args })
}
