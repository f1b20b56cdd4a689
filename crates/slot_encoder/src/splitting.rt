ghost use Rattle.std.specs.Prelude.{◌≡◌, ◌∷◌, ◌++◌, map, IfOk, OnOk};
ghost use Rattle.std.specs.List.{flat_map};
ghost use Rattle.plan_model.specs.declared.effects.Effect.TheVariants as E;
ghost use Rattle.slot_encoding.specs.slot_declarations.Frames.{IsFrame};
ghost use Rattle.slot_encoder.specs.Parts.{AreVariables};
ghost use Rattle.slot_encoder.specs.Made as made;

use crate::atoms::{comes_before, held, is_free};
use crate::methods::held_task;
use crate::variables::{Variables, slot_of};
use htn_base::{List, Memory};
use order_encoder::{push_clearing, push_copying};
use plan_model::{Atom, Child, Effect, Head, MethodPlan, Pair, Term};
use slot_encoding::slot_declarations::{Frame, plus, task_predicate};
use std::alloc::Global;

/// Puts at the end what a method does: its task goes; a childless one frees the task's slot, another one puts its children into
/// slots.
pub(crate) fn push_method_effects(
    alloc: Global,
    frame: &Frame<'_>,
    check: u32,
    plan: &MethodPlan,
    variables: &Variables,
    into: &mut List<Effect>,
) -> Result<(), Memory>
    requires frame { IsFrame frame.now }
    requires variables { AreVariables plan.now variables.now }
    ensures { OnOk result (into.new ≡ into.old ++ made.method_eff frame.now check plan.now) }
{
    into.put(held_task(alloc, frame, plan, variables.front).map(Effect::Delete))?;
    if plan.schema.children.len() == 0 {
        push_freed(alloc, frame, variables.depth, into)
    } else {
        push_split(alloc, frame, check, plan, variables, into)
    }
}

/// Puts at the end that the first slot is free, and what waited for it waits no more.
pub(crate) fn push_freed(
    alloc: Global,
    frame: &Frame<'_>,
    depth: u32,
    into: &mut List<Effect>,
) -> Result<(), Memory>
    requires { IsFrame frame.now }
    ensures { OnOk result
        (into.new ≡ into.old ++ E.Add (made.is_free frame.now 0) ∷ made.cleared frame.now depth) }
{
    into.put(is_free(alloc, frame, 0).map(Effect::Add))?;
    push_clearing(
        alloc,
        &frame.basis.order,
        frame.slots,
        &frame.style,
        Term::Var(0),
        depth,
        into,
    )
}

/// Puts at the end that the new slots are taken, that the children are in theirs, and their order.
fn push_split(
    alloc: Global,
    frame: &Frame<'_>,
    check: u32,
    plan: &MethodPlan,
    variables: &Variables,
    into: &mut List<Effect>,
) -> Result<(), Memory>
    requires frame { IsFrame frame.now }
    requires variables { AreVariables plan.now variables.now }
    ensures { OnOk result (into.new ≡ into.old ++ made.children_put frame.now check plan.now) }
{
    let schema = &plan.schema;
    let front = variables.front;
    let slots = variables.slots.as_slice();
    let children = schema.children.as_slice();
    for k in 0..variables.spare {
        into.put(is_free(alloc, frame, 1 + k).map(Effect::Delete))?;
    }
    push_children(alloc, frame, check, front, slots, children, into)?;
    push_pairs(alloc, frame, slots, schema.pairs.as_slice(), into)?;
    push_copies(
        alloc,
        frame,
        variables.depth,
        slots,
        plan.copiers.as_slice(),
        into,
    )
}

/// Puts at the end that each child is in its slot.
pub fn push_children(
    alloc: Global,
    frame: &Frame<'_>,
    check: u32,
    front: u32,
    slots: &[u32],
    children: &[Child],
    into: &mut List<Effect>,
) -> Result<(), Memory>
    requires { IsFrame frame.now }
    ensures { OnOk result (into.new ≡ into.old ++
        map E.Add (made.child_atoms frame.now front check slots.now children.now)) }
{
    let mut i: u32 = 0;
    for child in children {
        if i as usize >= slots.len() {
            return Ok(());
        }
        let slot = slot_of(slots, i);
        into.put(placed(alloc, frame, check, front, slot, child).map(Effect::Add))?;
        i = plus(i, 1)?;
    }
    Ok(())
}

/// The atom that the slot holds the child.
fn placed(
    alloc: Global,
    frame: &Frame<'_>,
    check: u32,
    front: u32,
    slot: u32,
    child: &Child,
) -> Result<Atom, Memory>
    requires { IsFrame frame.now }
    ensures { IfOk result (λ a. a ≡ made.child_atom frame.now front check slot child.now) }
{
    let args = child.args.as_slice();
    match child.head {
        Head::Task(task) => {
            let predicate = task_predicate(frame.compiled, &frame.basis.numbers, task)?;
            held(alloc, frame, predicate, slot, front, args)
        }
        Head::Action(action) => {
            let predicate = plus(frame.basis.numbers.first_action, action)?;
            held(alloc, frame, predicate, slot, front, args)
        }
        Head::Check => held(alloc, frame, check, slot, front, args),
    }
}

fn push_pairs(
    alloc: Global,
    frame: &Frame<'_>,
    slots: &[u32],
    pairs: &[Pair],
    into: &mut List<Effect>,
) -> Result<(), Memory>
    requires { IsFrame frame.now }
    ensures { OnOk result (into.new ≡ into.old ++ made.added_pairs frame.now slots.now pairs.now) }
{
    for pair in pairs {
        let first = slot_of(slots, pair.first);
        let then = slot_of(slots, pair.then);
        into.put(comes_before(alloc, frame, first, then))?;
    }
    Ok(())
}

/// Puts at the end that what waits for the task waits for each of these children.
fn push_copies(
    alloc: Global,
    frame: &Frame<'_>,
    depth: u32,
    slots: &[u32],
    copiers: &[u32],
    into: &mut List<Effect>,
) -> Result<(), Memory>
    requires { IsFrame frame.now }
    ensures { OnOk result (into.new ≡ into.old ++
        flat_map (made.copied frame.now depth slots.now) copiers.now) }
{
    for child in copiers {
        let slot = Term::Var(slot_of(slots, *child));
        push_copying(
            alloc,
            &frame.basis.order,
            frame.slots,
            &frame.style,
            Term::Var(0),
            slot,
            depth,
            into,
        )?;
    }
    Ok(())
}
