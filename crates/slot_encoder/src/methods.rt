ghost use Rattle.std.specs.Prelude.{◌≡◌, ◌<◌, ◌++◌, length, map, IfOk, OnOk};
ghost use Rattle.plan_model.specs.task_networks.Spelling.{numbers};
ghost use Rattle.slot_encoding.specs.slot_declarations.Frames.{IsFrame};
ghost use Rattle.slot_encoder.specs.Parts.{AreVariables};
ghost use Rattle.slot_encoder.specs.Made as made;

use crate::actions::check_predicate;
use crate::atoms::held;
use crate::conditions::{push_condition, push_waits};
use crate::formulas::equal;
use crate::goals::free;
use crate::split_action::{Parts, SplitAction};
use crate::splitting::push_method_effects;
use crate::terms::moved;
use crate::variables::{Variables, variables_of};
use htn_base::{Boxed, List, Memory};
use plan_model::{Atom, Constraint, Formula, Guard, MethodPlan, Param, Term};
use slot_encoding::slot_declarations::{
    Frame, guard_predicate, named, numbered, prefixed, push_params, slot_param, task_predicate,
};
use std::alloc::Global;

/// The action of method `m`, the top method being number 0.
pub(crate) fn encoded_method(
    alloc: Global,
    frame: &Frame<'_>,
    m: u32,
) -> Result<SplitAction, Memory>
    requires frame { IsFrame frame.now }
    requires some { m < length frame.now.compiled.now.methods }
    ensures { IfOk result (made.IsMethod frame.now m) }
{
    let check = check_predicate(frame, m)?;
    let plan = &frame.compiled.methods.as_slice()[m as usize];
    let name = match m {
        0 => named(frame, b"htn_start"),
        _ => prefixed(alloc, frame, b"htn_m_", plan.schema.name)?,
    };
    let variables = variables_of(alloc, plan)?;
    let mut parts = Parts::new(alloc);
    push_parts(alloc, frame, check, plan, &variables, &mut parts)?;
    Ok(parts.into_action(name, variables.spare))
}

/// Puts the parts of a method's action at the ends.
fn push_parts(
    alloc: Global,
    frame: &Frame<'_>,
    check: u32,
    plan: &MethodPlan,
    variables: &Variables,
    into: &mut Parts,
) -> Result<(), Memory>
    requires frame { IsFrame frame.now }
    requires variables { AreVariables plan.now variables.now }
    ensures params { OnOk result
        (into.new.params ≡ into.old.params ++ made.method_params frame.now plan.now) }
    ensures before { OnOk result
        (into.new.before ≡ into.old.before ++ made.method_before frame.now plan.now) }
    ensures behind { OnOk result (into.new.behind ≡ into.old.behind ++
        made.method_behind frame.now variables.now.front plan.now) }
    ensures effects { OnOk result
        (into.new.effects ≡ into.old.effects ++ made.method_eff frame.now check plan.now) }
{
    push_method_params(alloc, frame, plan, variables, &mut into.params)?;
    push_before(alloc, frame, plan, variables, &mut into.before)?;
    push_behind(alloc, frame, variables.front, plan, &mut into.behind)?;
    push_method_effects(alloc, frame, check, plan, variables, &mut into.effects)
}

/// Puts at the end the task's slot, the new slots, and the method's own parameters.
fn push_method_params(
    alloc: Global,
    frame: &Frame<'_>,
    plan: &MethodPlan,
    variables: &Variables,
    into: &mut List<Param>,
) -> Result<(), Memory>
    requires frame { IsFrame frame.now }
    requires variables { AreVariables plan.now variables.now }
    ensures { OnOk result (into.new ≡ into.old ++ made.method_params frame.now plan.now) }
{
    into.push(slot_param(named(frame, b"htn_h")))?;
    for k in 0..variables.spare {
        into.push(slot_param(numbered(alloc, frame, b"htn_h", 1 + k)?))?;
    }
    push_params(frame, plan.schema.params.as_slice(), into)
}

/// Puts at the end what a method asks for first: its task in the first slot with nothing before it, and free slots.
fn push_before(
    alloc: Global,
    frame: &Frame<'_>,
    plan: &MethodPlan,
    variables: &Variables,
    into: &mut List<Formula>,
) -> Result<(), Memory>
    requires frame { IsFrame frame.now }
    requires variables { AreVariables plan.now variables.now }
    ensures { OnOk result (into.new ≡ into.old ++ made.method_before frame.now plan.now) }
{
    into.put(held_task(alloc, frame, plan, variables.front).map(Formula::Holds))?;
    push_waits(alloc, frame, variables.depth, into)?;
    for k in 0..variables.spare {
        into.put(free(alloc, frame, Term::Var(1 + k)))?;
    }
    Ok(())
}

/// Puts at the end what it asks for besides, the free slots being different: the constraints, the guards, and the precondition
/// where it is tested at once.
pub fn push_behind(
    alloc: Global,
    frame: &Frame<'_>,
    front: u32,
    plan: &MethodPlan,
    into: &mut List<Formula>,
) -> Result<(), Memory>
    requires { IsFrame frame.now }
    ensures { OnOk result (into.new ≡ into.old ++ made.method_behind frame.now front plan.now) }
{
    for one in plan.schema.constraints.as_slice() {
        into.put(constraint(alloc, frame, front, one))?;
    }
    push_guards(alloc, frame, front, plan.guards.as_slice(), into)?;
    if plan.tested {
        push_condition(alloc, frame, front, &plan.schema.pre, into)
    } else {
        Ok(())
    }
}

/// The method's task, in the first slot.
pub(crate) fn held_task(
    alloc: Global,
    frame: &Frame<'_>,
    plan: &MethodPlan,
    front: u32,
) -> Result<Atom, Memory>
    requires { IsFrame frame.now }
    ensures { IfOk result (λ a. a ≡ made.method_task frame.now front plan.now) }
{
    let predicate = task_predicate(frame.compiled, &frame.basis.numbers, plan.schema.task)?;
    held(
        alloc,
        frame,
        predicate,
        0,
        front,
        plan.schema.task_args.as_slice(),
    )
}

fn constraint(
    alloc: Global,
    frame: &Frame<'_>,
    front: u32,
    one: &Constraint,
) -> Result<Formula, Memory>
    ensures { IfOk result (λ f. f ≡ made.constraint frame.now front one.now) }
{
    let equal = equal(frame, front, one.left, one.right)?;
    if one.equal {
        Ok(equal)
    } else {
        Ok(Formula::Not(Boxed::new(alloc, equal)?))
    }
}

fn push_guards(
    alloc: Global,
    frame: &Frame<'_>,
    front: u32,
    guards: &[Guard],
    into: &mut List<Formula>,
) -> Result<(), Memory>
    requires { IsFrame frame.now }
    ensures { OnOk result (into.new ≡ into.old ++ made.guards frame.now front guards.now) }
{
    for one in guards {
        let predicate = guard_predicate(frame, one.ty)?;
        let mut args = List::new(alloc);
        args.put(moved(frame, front, one.term))?;
        into.push(Formula::Holds(Atom { predicate, args }))?;
    }
    Ok(())
}
