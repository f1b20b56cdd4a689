ghost use Rattle.std.specs.Prelude.{ℕ, ◌≡◌, replicate, None, IfOk};
ghost use Rattle.plan_model.specs.plan_meaning.Network.{task};
ghost use Rattle.value_choices.specs.Worlds.{IsWorldOf};
ghost use Rattle.value_choices.specs.Settled.{Settles};
ghost use Rattle.method_fits.specs.Subtasks.{said_works, IsSaid};
ghost use Rattle.method_fits.specs.Fits as spec;

use crate::children::bind_children;
use crate::subtask::Subtask;
use htn_base::{List, Memory};
use plan_model::{Compiled, MethodPlan};
use problem_index::World;
use std::alloc::Global;
use value_choices::{bind_terms, first_values};

/// The values of a method where it decomposes a task into subtasks.
///
/// `values`: the first of those with which it does. `known`: the values of those parameters that stand in the task or in a subtask,
/// and none for the others.
pub struct Fit {
    pub values: List<u32>,
    pub known: Vec<Option<u32>>,
}

impl Drop for Fit {
    fn drop(self) {
        let Fit {
            values: _,
            known: _,
        } = self;
    }
}

/// The fit of the method of this number for the task with these objects and these subtasks. `None` exactly where the method
/// decomposes the task so with no values.
pub fn fitting(
    alloc: Global,
    world: &World<'_>,
    c: &Compiled,
    method: u32,
    task_number: usize,
    objects: &[u32],
    said: &[Subtask<'_>],
) -> Result<Option<Fit>, Memory>
    requires world { IsWorldOf c.now world.now }
    ensures fit { IfOk result (spec.IsTheFit c.now method (task task_number objects.now) (said_works said.now)) }
{
    let Some(plan) = c.methods.get(method as usize) else {
        return Ok(None);
    };
    if plan.schema.task as usize != task_number {
        return Ok(None);
    }
    let mut known = unknown(alloc, plan.schema.params.len())?;
    if !bind(world, c, plan, objects, said, known.as_mut_slice()) {
        return Ok(None);
    }
    match first_values(
        alloc,
        world,
        plan.schema.params.as_slice(),
        plan.schema.constraints.as_slice(),
        known.as_slice(),
    ) {
        Ok(Some(values)) => Ok(Some(Fit { values, known })),
        Ok(None) => {
            drop(known);
            Ok(None)
        }
        Err(Memory) => {
            drop(known);
            Err(Memory)
        }
    }
}

/// Nothing is known of so many values.
fn unknown(alloc: Global, count: usize) -> Result<Vec<Option<u32>>, Memory>
    ensures none { IfOk result (λ known. known.items ≡ replicate count None) }
{
    let known = vec![in alloc; None; count]?;
    Ok(known)
}

/// The method's task has these objects, and its children are these subtasks: what is known of its values then. `false` where that
/// can't be.
fn bind(
    world: &World<'_>,
    c: &Compiled,
    plan: &MethodPlan,
    objects: &[u32],
    said: &[Subtask<'_>],
    known: &mut [Option<u32>],
) -> bool
    requires world { IsWorldOf c.now world.now }
    ensures { (m : ℕ) → Settles (λ values. IsSaid c.now plan.now m objects.now (said_works said.now) values) known.old known.new result }
{
    if !bind_terms(plan.schema.task_args.as_slice(), objects, known) {
        return false;
    }
    bind_children(world, c, plan.schema.children.as_slice(), said, known)
}
