ghost use Rattle.std.specs.Prelude.{◌≡◌, ◌<◌, length, IsTrue, IfOk};
ghost use Rattle.std.specs.Option.{option_map};
ghost use Rattle.plan_model.specs.Typing.{InType};
ghost use Rattle.problem_index.specs.Kinds.{IsWorld};
ghost use Rattle.value_choices.specs.Choices.{CanBe, IsFirst};
ghost use Rattle.value_choices.specs.Ranges as spec;

use crate::range::Range;
use htn_base::Memory;
use plan_model::Param;
use problem_index::World;
use std::alloc::Global;

/// Values of parameters, which go through all that the parameters can have, in lexicographic order.
pub struct Choice {
    ranges: Vec<Range>,
    values: Vec<u32>,
}

impl Drop for Choice {
    fn drop(self) {
        let Choice {
            ranges: _,
            values: _,
        } = self;
    }
}

impl Choice {
    /// The first values that these parameters can have: an object of its type for each, and the known one where one is known. `None`
    /// exactly where they can have none.
    pub fn first(
        alloc: Global,
        world: &World<'_>,
        params: &[Param],
        known: &[Option<u32>],
    ) -> Result<Option<Choice>, Memory>
        requires world { IsWorld world.now }
        requires as_many { length known.now ≡ length params.now }
        ensures first { IfOk result (spec.Begins (CanBe (InType world.now.types.now world.now.objects.now) params.now known.now)) }
    {
        let ranges = ranges_of(alloc, world, params, known)?;
        match least(alloc, ranges.as_slice())? {
            Some(values) => Ok(Some(Choice { ranges, values })),
            None => Ok(None),
        }
    }

    /// The values that are chosen now.
    pub fn values(&self) -> &[u32]
        ensures values { result.now ≡ self.now.values.items }
    {
        self.values.as_slice()
    }

    /// Goes on to the next values. `false` where there are none: it begins again then.
    pub fn advance(&mut self) -> bool
        requires choice { spec.IsChoice self.old }
        ensures kept { self.new.ranges.items ≡ self.old.ranges.items }
        ensures choice { spec.IsChoice self.new }
        ensures moved { spec.Moves (spec.AreAmong self.old.ranges.items) self.old.values.items self.new.values.items result }
        ensures fewer { IsTrue result → spec.left self.new < spec.left self.old }
    {
        turn(self.ranges.as_slice(), self.values.as_mut_slice())
    }
}

/// What each parameter may stand for.
fn ranges_of(
    alloc: Global,
    world: &World<'_>,
    params: &[Param],
    known: &[Option<u32>],
) -> Result<Vec<Range>, Memory>
    requires world { IsWorld world.now }
    requires as_many { length known.now ≡ length params.now }
    ensures as_many { IfOk result (λ ranges. length ranges.items ≡ length params.now) }
    ensures ranges { IfOk result (λ ranges.
        spec.AreRanges (InType world.now.types.now world.now.objects.now) params.now known.now ranges.items) }
{
    let mut ranges = Vec::with_capacity(alloc, params.len())?;
    for i in 0..params.len() {
        let range = Range::of(alloc, world, params[i].ty, known[i])?;
        ranges.push(range)?;
    }
    Ok(ranges)
}

/// The first option of each range, where each has one.
fn least(alloc: Global, ranges: &[Range]) -> Result<Option<Vec<u32>>, Memory>
    requires increasing { spec.AreIncreasing ranges.now }
    ensures least { IfOk result (λ found. spec.AreTheLeast ranges.now (option_map (λ values. values.items) found)) }
{
    let mut values = Vec::with_capacity(alloc, ranges.len())?;
    for range in ranges {
        match range.least_from(0) {
            Some(object) => values.push(object)?,
            None => return Ok(None),
        }
    }
    Ok(Some(values))
}

/// Goes on to the next values of these ranges. `false` where there are none: they are the first again then.
fn turn(ranges: &[Range], values: &mut [u32]) -> bool
    requires increasing { spec.AreIncreasing ranges.now }
    requires among { spec.AreAmong ranges.now values.old }
    ensures among { spec.AreAmong ranges.now values.new }
    ensures moved { spec.Moves (spec.AreAmong ranges.now) values.old values.new result }
    ensures fewer { IsTrue result → spec.left_behind ranges.now values.new < spec.left_behind ranges.now values.old }
{
    for i in (0..ranges.len()).rev() {
        match ranges[i].least_from(u64::from(values[i]) + 1) {
            Some(next) => {
                values[i] = next;
                return true;
            }
            None => {
                if let Some(first) = ranges[i].least_from(0) {
                    values[i] = first;
                }
            }
        }
    }
    false
}
