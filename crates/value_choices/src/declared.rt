ghost use Rattle.std.specs.Prelude.{ℕ, List, ◌↔◌, IsTrue};
ghost use Rattle.std.specs.Option.{option_copied};
ghost use Rattle.plan_model.specs.Typing.{InType};
ghost use Rattle.plan_model.specs.plan_meaning.Truth.{AreTyped};
ghost use Rattle.plan_model.specs.plan_meaning.Network.{IsDeclared};
ghost use Rattle.problem_index.specs.Kinds.{IsWorld};
ghost use Rattle.value_choices.specs.Worlds.{IsWorldOf};
ghost use Rattle.value_choices.specs.DeclaredParams as spec;

use plan_model::{Compiled, Head, Param};
use problem_index::World;

/// The parameters that are declared for what is of this kind.
fn params_of(c: &Compiled, head: Head) -> Option<&[Param]>
    ensures { (objects : List ℕ) → spec.HasParams c.now head objects (option_copied result) }
{
    match head {
        Head::Task(task) => match c.hddl.tasks.get(task as usize) {
            Some(schema) => Some(schema.params.as_slice()),
            None => None,
        },
        Head::Action(action) => match c.hddl.actions.get(action as usize) {
            Some(schema) => Some(schema.params.as_slice()),
            None => None,
        },
        Head::Check => match c.methods.get(0) {
            Some(plan) => Some(plan.schema.params.as_slice()),
            None => None,
        },
    }
}

/// Whether there is an object for each parameter, of its type.
pub(crate) fn are_typed(world: &World<'_>, params: &[Param], objects: &[u32]) -> bool
    requires world { IsWorld world.now }
    ensures { IsTrue result ↔ AreTyped (InType world.now.types.now world.now.objects.now) params.now objects.now }
{
    if params.len() != objects.len() {
        return false;
    }
    for i in 0..params.len() {
        if !world.has(objects[i], params[i].ty) {
            return false;
        }
    }
    true
}

/// Whether the objects are of the types that are declared for what is of this kind.
pub fn is_declared(world: &World<'_>, c: &Compiled, head: Head, objects: &[u32]) -> bool
    requires world { IsWorldOf c.now world.now }
    ensures { IsTrue result ↔ IsDeclared c.now (spec.work_of head objects.now) }
{
    match params_of(c, head) {
        Some(params) => are_typed(world, params, objects),
        None => false,
    }
}
