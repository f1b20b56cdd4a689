ghost use Rattle.std.specs.Prelude.{ℕ, List as Items, ◌≡◌, ◌↔◌, Bool, slice_get, option_map, IfOk};
ghost use Rattle.std.specs.Option.{option_copied};
ghost use Rattle.plan_model.specs.declared.terms.GroundAtom.{GroundAtom as an_atom};
ghost use Rattle.plan_model.specs.task_networks.Tree.{ran};
ghost use Rattle.plan_model.specs.plan_meaning.Network.{action as action_work, check as check_work, InTypeOf};
ghost use Rattle.plan_model.specs.plan_meaning.Solution.{Allows};
ghost use Rattle.tree_core.specs.Labels.{label_of};
ghost use Rattle.node_conditions.specs.Demands.{IsAskable, IsAsked, IsMet};
ghost use Rattle.node_conditions.specs.Standing as spec;

use crate::demand::Demand;
use crate::known::known_of;
use htn_base::Memory;
use plan_model::{Compiled, Formula};
use std::alloc::Global;
use tree_core::{Label, Tree};

/// What is asked where the node stands in a gap.
pub(crate) fn demand_of<'a>(
    alloc: Global,
    c: &'a Compiled,
    tree: &'a Tree,
    node: u32,
) -> Result<Demand<'a>, Memory>
    ensures askable { IfOk result IsAskable }
    ensures demand { IfOk result (λ demand. (truth : an_atom → Bool) (values : Items ℕ)
        → spec.RowStands c.now tree.now node (spec.told truth) values ↔ IsMet (InTypeOf c.now) (spec.told truth) demand values) }
{
    match tree.label(node) {
        Some(Label::Primitive { action, args }) => Ok(of_action(c, *action, args.as_slice())),
        Some(Label::Check { method, args: _ }) => {
            of_check(alloc, c, *method, parent_label(tree, node))
        }
        Some(
            Label::Abstract {
                task: _,
                args: _,
                method,
                method_args,
            },
        ) => of_method(alloc, c, *method, method_args.as_slice()),
        None => Ok(Demand::Nothing),
    }
}

/// The label of the node's parent.
fn parent_label<'a>(tree: &'a Tree, node: u32) -> Option<&'a Label>
    ensures { option_map label_of (option_copied result) ≡ spec.parent_label tree.now node }
{
    tree.label(tree.parent(node)?)
}

/// The condition of the action.
fn of_action<'a>(c: &'a Compiled, action: u32, args: &'a [u32]) -> Demand<'a>
    ensures askable { IsAskable result }
    ensures demand { (truth : an_atom → Bool) (values : Items ℕ)
        → Allows c.now (spec.told truth) (ran (action_work action args.now)) ↔ IsMet (InTypeOf c.now) (spec.told truth) result values }
{
    match c.hddl.actions.get(action as usize) {
        Some(schema) => Demand::Action(&schema.pre, args),
        None => Demand::Never,
    }
}

/// The precondition of the check's method, with values that the method at the parent can take.
fn of_check<'a>(
    alloc: Global,
    c: &'a Compiled,
    method: u32,
    parent: Option<&'a Label>,
) -> Result<Demand<'a>, Memory>
    ensures askable { IfOk result IsAskable }
    ensures demand { IfOk result (λ demand. (truth : an_atom → Bool) (values : Items ℕ)
        → (spec.LabelTakes c.now (option_map label_of (option_copied parent.entry)) values
        × Allows c.now (spec.told truth) (ran (check_work method values)))
        ↔ IsMet (InTypeOf c.now) (spec.told truth) demand values) }
{
    let Some(checked) = c.methods.get(method as usize) else {
        return Ok(Demand::Never);
    };
    match parent {
        Some(
            Label::Abstract {
                task: _,
                args: _,
                method,
                method_args,
            },
        ) => taking(
            alloc,
            c,
            *method,
            method_args.as_slice(),
            Some(&checked.schema.pre),
        ),
        _ => Ok(Demand::Never),
    }
}

/// Of a method without a check, values that it can take, with which its precondition is true where it is tested.
fn of_method<'a>(
    alloc: Global,
    c: &'a Compiled,
    method: u32,
    old: &[u32],
) -> Result<Demand<'a>, Memory>
    ensures askable { IfOk result IsAskable }
    ensures demand { IfOk result (λ demand. (truth : an_atom → Bool) (values : Items ℕ)
        → spec.MethodStands c.now (record { number = method; values = old.now }) (spec.told truth) values
        ↔ IsMet (InTypeOf c.now) (spec.told truth) demand values) }
{
    let Some(plan) = c.methods.get(method as usize) else {
        return Ok(Demand::Never);
    };
    if plan.checked {
        return Ok(Demand::Nothing);
    }
    if plan.tested {
        return taking(alloc, c, method, old, Some(&plan.schema.pre));
    }
    taking(alloc, c, method, old, None)
}

/// Values that the method can take, with which the condition is true.
fn taking<'a>(
    alloc: Global,
    c: &'a Compiled,
    method: u32,
    old: &[u32],
    condition: Option<&'a Formula>,
) -> Result<Demand<'a>, Memory>
    ensures askable { IfOk result IsAskable }
    ensures demand { IfOk result (λ demand. (truth : an_atom → Bool) (values : Items ℕ)
        → (spec.PlanTakes c.now (slice_get c.now.methods method) old.now values
        × IsAsked (InTypeOf c.now) (spec.told truth) condition.entry values)
        ↔ IsMet (InTypeOf c.now) (spec.told truth) demand values) }
{
    let Some(plan) = c.methods.get(method as usize) else {
        return Ok(Demand::Never);
    };
    let known = known_of(alloc, plan, old)?;
    Ok(Demand::Method(plan, known, condition))
}
