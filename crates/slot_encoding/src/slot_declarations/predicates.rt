ghost use Rattle.std.specs.Prelude.{◌≡◌, ◌++◌, IfOk, OnOk};
ghost use Rattle.slot_encoding.specs.EncodedNames as spec;
ghost use Rattle.slot_encoding.specs.slot_declarations.Frames.{IsFrame};
ghost use Rattle.slot_encoding.specs.slot_declarations.Made as made;

use crate::slot_declarations::frame::Frame;
use crate::slot_declarations::guards::guard_name;
use crate::slot_declarations::params::source_params;
use crate::slot_declarations::words::{named, numbered, prefixed, renamed};
use htn_base::{List, Memory, Name, number};
use plan_model::{MethodPlan, Param, Predicate};
use std::alloc::Global;

/// The predicates: the source's, three of the slots, and those of tasks, actions, checks and guards.
pub(crate) fn encoded_predicates(
    alloc: Global,
    frame: &Frame<'_>,
) -> Result<List<Predicate>, Memory>
    requires { IsFrame frame.now }
    ensures { IfOk result (λ ps. ps ≡ made.predicates frame.now) }
{
    let mut into = List::new(alloc);
    push_front(alloc, frame, &mut into)?;
    push_works(alloc, frame, &mut into)?;
    Ok(into)
}

/// Puts the source's predicates at the end, those of the slots and those of the tasks.
fn push_front(alloc: Global, frame: &Frame<'_>, into: &mut List<Predicate>) -> Result<(), Memory>
    requires { IsFrame frame.now }
    ensures { OnOk result (into.new ≡ into.old ++ made.front_predicates frame.now) }
{
    let hddl = &frame.compiled.hddl;
    let predicates = hddl.predicates.as_slice();
    for predicate in predicates {
        into.push(Predicate {
            name: renamed(frame, predicate.name),
            params: source_params(alloc, frame, predicate.params.as_slice())?,
        })?;
    }
    into.put(of_slot(alloc, frame, b"htn_top"))?;
    into.put(of_slot(alloc, frame, b"htn_free"))?;
    into.put(of_pair(alloc, frame))?;
    let tasks = hddl.tasks.as_slice();
    for task in tasks {
        into.put(held(alloc, frame, b"htn_t_", task.name, task.params.len()))?;
    }
    Ok(())
}

/// Puts the predicates of actions, checks and guards at the end.
fn push_works(alloc: Global, frame: &Frame<'_>, into: &mut List<Predicate>) -> Result<(), Memory>
    requires { IsFrame frame.now }
    ensures { OnOk result (into.new ≡ into.old ++ made.work_predicates frame.now) }
{
    let c = frame.compiled;
    let actions = c.hddl.actions.as_slice();
    for action in actions {
        into.put(held(alloc, frame, b"htn_a_", action.name, action.params.len()))?;
    }
    let methods = c.methods.as_slice();
    for plan in methods {
        push_check(alloc, frame, plan, into)?;
    }
    let types = frame.basis.guard_types.as_slice();
    for ty in types {
        into.put(guard_tested(alloc, frame, *ty))?;
    }
    Ok(())
}

fn of_slot(alloc: Global, frame: &Frame<'_>, word: &[u8]) -> Result<Predicate, Memory>
    ensures { IfOk result (λ p. p ≡ made.slot_predicate frame.now word.now) }
{
    let mut params = List::new(alloc);
    params.push(slot_param(named(frame, b"htn_h")))?;
    Ok(Predicate {
        name: named(frame, word),
        params,
    })
}

fn of_pair(alloc: Global, frame: &Frame<'_>) -> Result<Predicate, Memory>
    ensures { IfOk result (λ p. p ≡ made.order_predicate frame.now) }
{
    let mut params = List::new(alloc);
    params.push(slot_param(named(frame, b"htn_x")))?;
    params.push(slot_param(named(frame, b"htn_h")))?;
    Ok(Predicate {
        name: named(frame, b"htn_before"),
        params,
    })
}

/// A variable for a slot.
pub fn slot_param(name: Name) -> Param
    ensures { result ≡ record { name = name; ty = spec.slot_type } }
{
    Param { name, ty: 1 }
}

fn push_check(
    alloc: Global,
    frame: &Frame<'_>,
    plan: &MethodPlan,
    into: &mut List<Predicate>,
) -> Result<(), Memory>
    ensures { OnOk result (into.new ≡ into.old ++ made.checking_held frame.now plan.now) }
{
    if plan.checked {
        let schema = &plan.schema;
        into.put(held(alloc, frame, b"htn_c_", schema.name, schema.params.len()))
    } else {
        Ok(())
    }
}

/// A predicate for a slot that holds what has so many parameters.
fn held(
    alloc: Global,
    frame: &Frame<'_>,
    prefix: &[u8],
    name: Name,
    count: usize,
) -> Result<Predicate, Memory>
    ensures { IfOk result (λ p. p ≡ made.held frame.now prefix.now name count) }
{
    let name = prefixed(alloc, frame, prefix, name)?;
    let count = number(count)?;
    let mut params = List::new(alloc);
    params.push(slot_param(named(frame, b"htn_h")))?;
    for k in 0..count {
        params.push(Param {
            name: numbered(alloc, frame, b"htn_a", 1 + k)?,
            ty: 2,
        })?;
    }
    Ok(Predicate { name, params })
}

fn guard_tested(alloc: Global, frame: &Frame<'_>, ty: u32) -> Result<Predicate, Memory>
    ensures { IfOk result (λ p. p ≡ made.guard_tested frame.now ty) }
{
    let name = guard_name(alloc, frame, ty)?;
    let mut params = List::new(alloc);
    params.push(Param {
        name: named(frame, b"htn_a1"),
        ty: 2,
    })?;
    Ok(Predicate { name, params })
}
