ghost use Rattle.std.specs.Prelude.{◌≡◌, ◌<◌, ◌^◌, IfOk};
ghost use Rattle.std.specs.List.Sorted.{IsStrictlyIncreasing};
ghost use Rattle.plan_model.specs.Typing.{InType};
ghost use Rattle.problem_index.specs.Kinds.{IsWorld};
ghost use Rattle.value_choices.specs.Ranges as spec;

use htn_base::{List, Memory};
use plan_model::members;
use problem_index::World;
use std::alloc::Global;

/// What a parameter may stand for, in declaration order: one object, or those of a list.
pub(crate) enum Range {
    One(u32),
    Listed(List<u32>),
}

impl Drop for Range {
    fn drop(self) {
        match self {
            Range::One(_) => {}
            Range::Listed(_) => {}
        }
    }
}

impl Range {
    /// The objects of the type, or the known one where it is one of them.
    pub(crate) fn of(
        alloc: Global,
        world: &World<'_>,
        ty: u32,
        known: Option<u32>,
    ) -> Result<Range, Memory>
        requires world { IsWorld world.now }
        ensures range { IfOk result (spec.IsRange (InType world.now.types.now world.now.objects.now) ty known) }
    {
        match known {
            Some(object) => {
                if world.has(object, ty) {
                    return Ok(Range::One(object));
                }
                Ok(Range::Listed(List::new(alloc)))
            }
            None => Ok(Range::Listed(members(alloc, world.types, world.objects, ty)?)),
        }
    }

    /// The least option that is not less than `low`.
    pub(crate) fn least_from(&self, low: u64) -> Option<u32>
        requires increasing { IsStrictlyIncreasing (spec.options self.now) }
        ensures least { spec.IsTheLeastFrom (spec.options self.now) low result }
    {
        match self {
            Range::One(object) => {
                if u64::from(*object) >= low {
                    return Some(*object);
                }
                None
            }
            Range::Listed(list) => {
                let objects = list.as_slice();
                let place = objects.partition_point(|object| u64::from(*object) < low);
                match objects.get(place) {
                    Some(object) => Some(*object),
                    None => None,
                }
            }
        }
    }
}
