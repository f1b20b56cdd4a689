ghost use Rattle.std.specs.Prelude.{◌≡◌, length, IfOk};
ghost use Rattle.plan_model.specs.Typing.{InType};
ghost use Rattle.problem_index.specs.Kinds.{IsWorld};
ghost use Rattle.value_choices.specs.Meeting as spec;

use crate::choice::Choice;
use crate::constraints::meets;
use crate::only::{Only, only_values};
use htn_base::{List, Memory};
use plan_model::{Constraint, Param};
use problem_index::World;
use std::alloc::Global;

/// The first values that the parameters can have, the known ones where they are known, which meet the constraints. `None` exactly
/// where there are none.
pub fn first_values(
    alloc: Global,
    world: &World<'_>,
    params: &[Param],
    constraints: &[Constraint],
    known: &[Option<u32>],
) -> Result<Option<List<u32>>, Memory>
    requires world { IsWorld world.now }
    requires as_many { length known.now ≡ length params.now }
    ensures first { IfOk result (spec.AreTheFirst (InType world.now.types.now world.now.objects.now) params.now constraints.now known.now) }
{
    match only_values(alloc, world, params, known)? {
        Only::Values(values) => {
            if meets(constraints, values.as_slice()) {
                return Ok(Some(values));
            }
            drop(values);
            Ok(None)
        }
        Only::Never => Ok(None),
        Only::Open => first_of_many(alloc, world, params, constraints, known),
    }
}

/// The same, where values are tried one after another.
fn first_of_many(
    alloc: Global,
    world: &World<'_>,
    params: &[Param],
    constraints: &[Constraint],
    known: &[Option<u32>],
) -> Result<Option<List<u32>>, Memory>
    requires world { IsWorld world.now }
    requires as_many { length known.now ≡ length params.now }
    ensures first { IfOk result (spec.AreTheFirst (InType world.now.types.now world.now.objects.now) params.now constraints.now known.now) }
{
    let Some(mut choice) = Choice::first(alloc, world, params, known)? else {
        return Ok(None);
    };
    'tried: while !meets(constraints, choice.values()) {
        if !choice.advance() {
            return Ok(None);
        }
    }
    let values = copied(alloc, choice.values());
    drop(choice);
    Ok(Some(values?))
}

/// A list of these values.
fn copied(alloc: Global, values: &[u32]) -> Result<List<u32>, Memory>
    ensures same { IfOk result (λ copy. copy ≡ values.now) }
{
    let mut copy = List::with_room(alloc, values.len())?;
    for value in values {
        copy.push(*value)?;
    }
    Ok(copy)
}
