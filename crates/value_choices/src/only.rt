ghost use Rattle.std.specs.Prelude.{◌≡◌, length, IfOk};
ghost use Rattle.plan_model.specs.Typing.{InType};
ghost use Rattle.problem_index.specs.Kinds.{IsWorld};
ghost use Rattle.value_choices.specs.Choices.{CanBe};
ghost use Rattle.value_choices.specs.Only as spec;

use crate::declared::are_typed;
use htn_base::{List, Memory};
use plan_model::Param;
use problem_index::World;
use std::alloc::Global;

/// The only values that parameters can have. `Never`: there are none. `Open`: it isn't told, as where one is not known.
#[derive(Drop)]
pub enum Only {
    Values(List<u32>),
    Never,
    Open,
}

/// The values that these parameters can have, where all are known.
pub fn only_values(
    alloc: Global,
    world: &World<'_>,
    params: &[Param],
    known: &[Option<u32>],
) -> Result<Only, Memory>
    requires world { IsWorld world.now }
    requires as_many { length known.now ≡ length params.now }
    ensures only { IfOk result (spec.AreTheOnly (CanBe (InType world.now.types.now world.now.objects.now) params.now known.now)) }
{
    let Some(values) = all_known(alloc, known)? else {
        return Ok(Only::Open);
    };
    if are_typed(world, params, values.as_slice()) {
        return Ok(Only::Values(values));
    }
    drop(values);
    Ok(Only::Never)
}

/// What is known, where that is so of each value.
fn all_known(alloc: Global, known: &[Option<u32>]) -> Result<Option<List<u32>>, Memory>
    ensures { IfOk result (spec.AreAllKnown known.now) }
{
    let mut values = List::with_room(alloc, known.len())?;
    for value in known {
        match value {
            Some(value) => values.push(*value)?,
            None => return Ok(None),
        }
    }
    Ok(Some(values))
}
