ghost use Rattle.std.specs.Prelude.{◌≡◌, ◌<◌, ◌++◌, length, map, IfOk, OnOk};
ghost use Rattle.plan_model.specs.task_networks.Spelling.{numbers};
ghost use Rattle.slot_encoding.specs.slot_declarations.Frames.{IsFrame};
ghost use Rattle.stack_machine.specs.Stack.{behind};
ghost use Rattle.stack_encoder.specs.Made as made;

use crate::atoms::{falling_params, is_tip, is_up, push_at_tip, push_falling};
use htn_base::{List, Memory, Name, number};
use plan_model::{ActionSchema, Atom, Effect, Formula, MethodPlan, Param, Term};
use slot_encoder::{check_predicate, held, push_behind, push_children};
use slot_encoding::slot_declarations::{
    Frame, named, numbered, prefixed, push_params, slot_param, task_predicate,
};
use std::alloc::Global;

/// The action of method `m`, the top method being number 0.
pub(crate) fn stack_method(alloc: Global, frame: &Frame<'_>, m: u32) -> Result<ActionSchema, Memory>
    requires frame { IsFrame frame.now }
    requires some { m < length frame.now.compiled.now.methods }
    ensures { IfOk result (made.IsMethod frame.now m) }
{
    let check = check_predicate(frame, m)?;
    let plan = &frame.compiled.methods.as_slice()[m as usize];
    let name = match m {
        0 => named(frame, b"htn_start"),
        _ => prefixed(alloc, frame, b"htn_m_", plan.schema.name)?,
    };
    let count = number(plan.schema.children.len())?;
    if count == 0 {
        falling_method(alloc, frame, name, plan)
    } else {
        climbing_method(alloc, frame, name, check, plan, count)
    }
}

/// The action of a method without children: nothing comes in the place of its task.
fn falling_method(
    alloc: Global,
    frame: &Frame<'_>,
    name: Name,
    plan: &MethodPlan,
) -> Result<ActionSchema, Memory>
    requires { IsFrame frame.now }
    ensures { IfOk result (λ a. a ≡ made.falling_method frame.now name plan.now) }
{
    let params = falling_params(alloc, frame, plan.schema.params.as_slice())?;
    let mut condition = List::new(alloc);
    push_at_tip(
        alloc,
        frame,
        task_in(alloc, frame, plan, 1, 2),
        &mut condition,
    )?;
    push_behind(alloc, frame, 2, plan, &mut condition)?;
    let mut effects = List::new(alloc);
    push_falling(
        alloc,
        frame,
        task_in(alloc, frame, plan, 1, 2),
        &mut effects,
    )?;
    Ok(ActionSchema {
        name,
        params,
        pre: Formula::And(condition),
        eff: Effect::And(effects),
    })
}

/// The action of a method with so many children, some: they come in the place of its task and above it.
fn climbing_method(
    alloc: Global,
    frame: &Frame<'_>,
    name: Name,
    check: u32,
    plan: &MethodPlan,
    count: u32,
) -> Result<ActionSchema, Memory>
    requires frame { IsFrame frame.now }
    requires some { 0 < count }
    requires count { count ≡ length plan.now.schema.children }
    ensures { IfOk result (λ a. a ≡ made.climbing_method frame.now name check count plan.now) }
{
    let params = climbing_params(alloc, frame, plan, count)?;
    let condition = climbing_condition(alloc, frame, plan, count)?;
    let effects = climbing_effects(alloc, frame, check, plan, count)?;
    Ok(ActionSchema {
        name,
        params,
        pre: Formula::And(condition),
        eff: Effect::And(effects),
    })
}

/// A cell for each child, that of the task first, and then the method's own parameters.
fn climbing_params(
    alloc: Global,
    frame: &Frame<'_>,
    plan: &MethodPlan,
    count: u32,
) -> Result<List<Param>, Memory>
    requires frame { IsFrame frame.now }
    requires some { 0 < count }
    ensures { IfOk result (λ ps. ps ≡ made.method_params frame.now count plan.now) }
{
    let mut into = List::new(alloc);
    into.push(slot_param(named(frame, b"htn_h")))?;
    for k in 0..count - 1 {
        into.push(slot_param(numbered(alloc, frame, b"htn_h", 1 + k)?))?;
    }
    push_params(frame, plan.schema.params.as_slice(), &mut into)?;
    Ok(into)
}

/// Its task is at the tip, its cells lie one above the other, and what it asks for besides.
fn climbing_condition(
    alloc: Global,
    frame: &Frame<'_>,
    plan: &MethodPlan,
    count: u32,
) -> Result<List<Formula>, Memory>
    requires frame { IsFrame frame.now }
    requires some { 0 < count }
    ensures { IfOk result (λ fs. fs ≡ made.method_condition frame.now count plan.now) }
{
    let mut into = List::new(alloc);
    into.put(task_in(alloc, frame, plan, 0, count).map(Formula::Holds))?;
    into.put(is_tip(alloc, frame, Term::Var(0)).map(Formula::Holds))?;
    for k in 0..count - 1 {
        into.put(is_up(alloc, frame, k).map(Formula::Holds))?;
    }
    push_behind(alloc, frame, count, plan, &mut into)?;
    Ok(into)
}

/// Its task goes, the children are in its cells, and that of the line's first is the tip.
fn climbing_effects(
    alloc: Global,
    frame: &Frame<'_>,
    check: u32,
    plan: &MethodPlan,
    count: u32,
) -> Result<List<Effect>, Memory>
    requires frame { IsFrame frame.now }
    requires some { 0 < count }
    requires count { count ≡ length plan.now.schema.children }
    ensures { IfOk result (λ es. es ≡ made.climbing_effects frame.now check count plan.now) }
{
    let cells = cells_of(alloc, plan.line.as_slice(), count)?;
    let children = plan.schema.children.as_slice();
    let mut into = List::new(alloc);
    into.put(task_in(alloc, frame, plan, 0, count).map(Effect::Delete))?;
    push_children(
        alloc,
        frame,
        check,
        count,
        cells.as_slice(),
        children,
        &mut into,
    )?;
    push_climbing(alloc, frame, count - 1, &mut into)?;
    Ok(into)
}

/// Puts at the end that the tip goes from the cell of variable 0 to that of this one, if it is another.
fn push_climbing(
    alloc: Global,
    frame: &Frame<'_>,
    to: u32,
    into: &mut List<Effect>,
) -> Result<(), Memory>
    requires { IsFrame frame.now }
    ensures { OnOk result (into.new ≡ into.old ++ made.climbing frame.now to) }
{
    if to == 0 {
        return Ok(());
    }
    into.put(is_tip(alloc, frame, Term::Var(0)).map(Effect::Delete))?;
    into.put(is_tip(alloc, frame, Term::Var(to)).map(Effect::Add))
}

/// For each of so many children how many come after it in the line.
fn cells_of(alloc: Global, line: &[u32], count: u32) -> Result<Vec<u32>, Memory>
    ensures { IfOk result (λ cells. cells.items ≡ map (behind line.now) (numbers 0 count)) }
{
    let mut cells = vec![in alloc; 0_u32; count as usize]?;
    for k in (0..line.len()).rev() {
        let child = line[k] as usize;
        if child < cells.len() {
            cells[child] = number(line.len() - 1 - k)?;
        }
    }
    Ok(cells)
}

/// The method's task, in the cell of this variable.
fn task_in(
    alloc: Global,
    frame: &Frame<'_>,
    plan: &MethodPlan,
    cell: u32,
    front: u32,
) -> Result<Atom, Memory>
    requires { IsFrame frame.now }
    ensures { IfOk result (λ a. a ≡ made.task frame.now front cell plan.now) }
{
    let predicate = task_predicate(frame.compiled, &frame.basis.numbers, plan.schema.task)?;
    let args = plan.schema.task_args.as_slice();
    held(alloc, frame, predicate, cell, front, args)
}
