ghost use Rattle.std.specs.Prelude.{◌≡◌, IfOk, All};
ghost use Rattle.plan_model.specs.Parts.{AreListed};
ghost use Rattle.plan_model.specs.plan_meaning.Compilation as spec;
ghost use Rattle.bound_calc.specs.method_precs.Plans.{AreAllPlans, front_parts};
ghost use Rattle.bound_calc.specs.method_precs.Small.{IsFit};

use crate::method_precs::checks::{is_checked, is_tested};
use crate::method_precs::children::children_of;
use crate::method_precs::guards::guards_of;
use crate::method_precs::orders::Ordered;
use crate::method_precs::pairs::pairs_of;
use htn_base::{List, Memory};
use plan_model::{
    Checks, Child, Constraint, Formula, Hddl, MethodPlan, MethodSchema, Pair, Param, Term,
};
use std::alloc::Global;

/// The plans of the top method and then of the others, in order.
pub fn plans_of(alloc: Global, problem: &Hddl, checks: &Checks) -> Result<List<MethodPlan>, Memory>
    requires listed { AreListed problem.now.types }
    requires top { IsFit problem.now.top }
    requires methods { All IsFit problem.now.methods }
    ensures { IfOk result (AreAllPlans problem.now checks.now) }
{
    let mut plans = List::new(alloc);
    plans.put(plan_of(alloc, problem, checks, &problem.top))?;
    for method in problem.methods.as_slice() {
        plans.put(plan_of(alloc, problem, checks, method))?;
    }
    Ok(plans)
}

/// The compiled form of the method.
fn plan_of(
    alloc: Global,
    problem: &Hddl,
    checks: &Checks,
    method: &MethodSchema,
) -> Result<MethodPlan, Memory>
    requires listed { AreListed problem.now.types }
    requires fit { IsFit method.now }
    ensures { IfOk result (spec.IsMethodPlan problem.now checks.now method.now) }
{
    let guards = guards_of(alloc, problem, method)?;
    let checked = is_checked(checks, &method.pre);
    let schema = schema_of(alloc, checked, method)?;
    let count = schema.children.len() as u32;
    match Ordered::new(alloc, count, schema.pairs.as_slice()) {
        Ok(ordered) => {
            let (line, heir, copiers) = ordered.into_parts();
            Ok(MethodPlan {
                schema,
                checked,
                tested: is_tested(checks, &method.pre),
                line,
                heir,
                copiers,
                guards,
            })
        }
        Err(Memory) => {
            drop(schema);
            Err(Memory)
        }
    }
}

/// The method with its check, if there is one, and each pair once.
fn schema_of(alloc: Global, checked: bool, method: &MethodSchema) -> Result<MethodSchema, Memory>
    requires { IsFit method.now }
    ensures { IfOk result (λ schema. schema ≡ record method.now {
      children = spec.children checked method.now;
      pairs = spec.pairs checked method.now;
    }) }
{
    let (children, pairs, constraints) = network_of(alloc, checked, method)?;
    let (params, task_args, pre) = front_of(alloc, method)?;
    Ok(MethodSchema {
        name: method.name,
        params,
        task: method.task,
        task_args,
        pre,
        children,
        pairs,
        constraints,
    })
}

/// Copies of the parameters, the task's arguments and the precondition.
fn front_of(
    alloc: Global,
    method: &MethodSchema,
) -> Result<(List<Param>, List<Term>, Formula), Memory>
    ensures { IfOk result (λ front. front ≡ front_parts method.now) }
{
    let params = method.params.copy(alloc)?;
    let task_args = method.task_args.copy(alloc)?;
    Ok((params, task_args, method.pre.copy(alloc)?))
}

/// The children with the check, if there is one, each pair once, and the constraints.
fn network_of(
    alloc: Global,
    checked: bool,
    method: &MethodSchema,
) -> Result<(List<Child>, List<Pair>, List<Constraint>), Memory>
    requires { IsFit method.now }
    ensures { IfOk result (λ network. network ≡
        (spec.children checked method.now, spec.pairs checked method.now, method.now.constraints)) }
{
    let children = children_of(alloc, checked, method)?;
    let pairs = pairs_of(alloc, checked, method)?;
    Ok((children, pairs, method.constraints.copy(alloc)?))
}
