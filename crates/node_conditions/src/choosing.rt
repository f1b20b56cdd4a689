ghost use Rattle.std.specs.Prelude.{ℕ, List as Items, ◌≡◌, length, IfOk};
ghost use Rattle.ground_state.specs.Clauses.{IsInType};
ghost use Rattle.problem_index.specs.Kinds.{IsWorld};
ghost use Rattle.state_history.specs.Histories.{state_in};
ghost use Rattle.node_conditions.specs.Looks.{IsLook, IsFound};
ghost use Rattle.node_conditions.specs.Demands.{IsAsked, IsMetBy, Suit};

use htn_base::{List, Memory};
use plan_model::{Formula, MethodPlan};
use problem_index::World;
use state_history::{History, Look};
use std::alloc::Global;
use value_choices::{Choice, meets};

/// The first values with which something holds in a gap, or `None` where it holds with none, and then a gap since which that is so.
pub(crate) struct Found {
    pub(crate) values: Option<List<u32>>,
    pub(crate) since: u32,
}

impl Drop for Found {
    fn drop(self) {
        let Found {
            values: _,
            since: _,
        } = self;
    }
}

/// Whether the values meet the method's constraints, and the condition is true with them in the gap.
fn look_with(
    plan: &MethodPlan,
    condition: Option<&Formula>,
    values: &[u32],
    history: &mut History,
    gap: u32,
    world: &World<'_>,
) -> Result<Look, Memory>
    requires { IsWorld world.now }
    ensures look { IfOk result
        (IsLook (λ j. IsMetBy (IsInType world.now) (state_in history.old j) plan.now condition.entry values.now) gap) }
    ensures kept { history.new.flips ≡ history.old.flips }
{
    if !meets(plan.schema.constraints.as_slice(), values) {
        return Ok(Look {
            truth: false,
            since: 0,
        });
    }
    match condition {
        Some(f) => history.look(f, values, gap, world),
        None => Ok(Look {
            truth: true,
            since: 0,
        }),
    }
}

/// The first values that agree with what is known and meet the method's constraints, with which the condition is true in the gap.
pub(crate) fn first_suiting(
    alloc: Global,
    plan: &MethodPlan,
    known: &[Option<u32>],
    condition: Option<&Formula>,
    history: &mut History,
    gap: u32,
    world: &World<'_>,
) -> Result<Found, Memory>
    requires world { IsWorld world.now }
    requires as_many { length known.now ≡ length plan.now.schema.params }
    ensures found { IfOk result
        (IsFound (λ j values. Suit (IsInType world.now) (state_in history.old j) plan.now known.now condition.entry values) gap) }
    ensures kept { history.new.flips ≡ history.old.flips }
{
    let Some(mut choice) = Choice::first(alloc, world, plan.schema.params.as_slice(), known)? else {
        return Ok(Found {
            values: None,
            since: 0,
        });
    };
    let mut since = 0;
    'tried: loop {
        let look = look_with(plan, condition, choice.values(), history, gap, world)?;
        if look.truth {
            let values = listed(alloc, choice.values())?;
            return Ok(Found {
                values: Some(values),
                since,
            });
        }
        since = since.max(look.since);
        if !choice.advance() {
            return Ok(Found {
                values: None,
                since,
            });
        }
    }
}

/// The values as a list.
fn listed(alloc: Global, values: &[u32]) -> Result<List<u32>, Memory>
    ensures { IfOk result (λ list. list ≡ values.now) }
{
    let mut list = List::with_room(alloc, values.len())?;
    for value in values {
        list.push(*value)?;
    }
    Ok(list)
}
