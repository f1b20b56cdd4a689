ghost use Rattle.std.specs.Prelude.{◌≡◌, ◌++◌, IfOk, OnOk};
ghost use Rattle.slot_encoding.specs.slot_declarations.Frames.{IsFrame};
ghost use Rattle.slot_encoder.specs.Made as made;

use crate::conditions::push_condition;
use htn_base::{Boxed, List, Memory};
use plan_model::{Atom, Formula, Style, Term};
use slot_encoding::slot_declarations::{Frame, slot_param};
use std::alloc::Global;

/// The source goal, and every slot free.
pub(crate) fn goal_of(alloc: Global, frame: &Frame<'_>) -> Result<Formula, Memory>
    requires { IsFrame frame.now }
    ensures { IfOk result (λ f. f ≡ made.goal frame.now) }
{
    let mut into = List::new(alloc);
    push_condition(alloc, frame, 0, &frame.compiled.hddl.goal, &mut into)?;
    push_all_free(alloc, frame, &mut into)?;
    Ok(Formula::And(into))
}

fn push_all_free(alloc: Global, frame: &Frame<'_>, into: &mut List<Formula>) -> Result<(), Memory>
    requires { IsFrame frame.now }
    ensures { OnOk result (into.new ≡ into.old ++ made.slots_free frame.now) }
{
    match frame.style {
        Style::Adl => into.put(any_free(alloc, frame)),
        Style::Flat => {
            for k in 0..frame.slots {
                into.put(free(alloc, frame, Term::Obj(frame.basis.order.first_slot + k)))?;
            }
            Ok(())
        }
    }
}

fn any_free(alloc: Global, frame: &Frame<'_>) -> Result<Formula, Memory>
    requires { IsFrame frame.now }
    ensures { IfOk result (λ f. f ≡ made.any_slot_free frame.now) }
{
    let mut params = List::new(alloc);
    params.push(slot_param(frame.basis.order.x))?;
    let free = free(alloc, frame, Term::Var(0))?;
    Ok(Formula::Forall(params, Boxed::new(alloc, free)?))
}

/// That the slot is free.
pub(crate) fn free(alloc: Global, frame: &Frame<'_>, slot: Term) -> Result<Formula, Memory>
    requires { IsFrame frame.now }
    ensures { IfOk result (λ f. f ≡ made.free frame.now slot) }
{
    let mut args = List::new(alloc);
    args.push(slot)?;
    Ok(Formula::Holds(Atom {
        predicate: frame.basis.numbers.free,
        args,
    }))
}
