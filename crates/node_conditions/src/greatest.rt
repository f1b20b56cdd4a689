ghost use Rattle.std.specs.Prelude.{ℕ, List as Items, ◌≡◌, length, IfOk};
ghost use Rattle.ground_state.specs.Clauses.{IsInType};
ghost use Rattle.problem_index.specs.Kinds.{IsWorld};
ghost use Rattle.state_history.specs.Histories.{state_in};
ghost use Rattle.plan_model.specs.plan_meaning.Truth.{IsTrueIn};
ghost use Rattle.node_conditions.specs.Looks.{IsFound, IsTheStand};
ghost use Rattle.node_conditions.specs.Demands.{IsAskable, IsMet};

use crate::choosing::{Found, first_suiting};
use crate::demand::Demand;
use htn_base::{List, Memory};
use plan_model::Formula;
use problem_index::World;
use state_history::History;
use std::alloc::Global;

/// A gap, and the first values with which a node may stand in it.
pub(crate) struct Stand {
    pub(crate) gap: u32,
    pub(crate) values: List<u32>,
}

impl Drop for Stand {
    fn drop(self) {
        let Stand { gap: _, values: _ } = self;
    }
}

impl Stand {
    /// The values.
    pub(crate) fn into_values(self) -> List<u32>
        ensures { result ≡ self.values }
    {
        let Stand { gap: _, values } = self;
        values
    }
}

/// The first values with which the demand is met in the gap.
pub(crate) fn first_in(
    alloc: Global,
    demand: &Demand<'_>,
    history: &mut History,
    gap: u32,
    world: &World<'_>,
) -> Result<Found, Memory>
    requires world { IsWorld world.now }
    requires askable { IsAskable demand.now }
    ensures found { IfOk result (IsFound (λ j values. IsMet (IsInType world.now) (state_in history.old j) demand.now values) gap) }
    ensures kept { history.new.flips ≡ history.old.flips }
{
    match demand {
        Demand::Nothing => Ok(Found {
            values: Some(List::new(alloc)),
            since: 0,
        }),
        Demand::Never => Ok(Found {
            values: None,
            since: 0,
        }),
        Demand::Action(pre, args) => truth_in(alloc, pre, args, history, gap, world),
        Demand::Method(plan, known, condition) => first_suiting(
            alloc,
            plan,
            known.as_slice(),
            *condition,
            history,
            gap,
            world,
        ),
    }
}

/// No values, where the formula is true in the gap.
fn truth_in(
    alloc: Global,
    f: &Formula,
    objects: &[u32],
    history: &mut History,
    gap: u32,
    world: &World<'_>,
) -> Result<Found, Memory>
    requires { IsWorld world.now }
    ensures found { IfOk result (IsFound (λ j values. IsTrueIn (IsInType world.now) (state_in history.old j) f.now objects.now) gap) }
    ensures kept { history.new.flips ≡ history.old.flips }
{
    let look = history.look(f, objects, gap, world)?;
    let values = if look.truth {
        Some(List::new(alloc))
    } else {
        None
    };
    Ok(Found {
        values,
        since: look.since,
    })
}

/// The greatest gap up to `most` in which the demand is met, with the first values.
pub(crate) fn greatest_in(
    alloc: Global,
    demand: &Demand<'_>,
    history: &mut History,
    most: u32,
    world: &World<'_>,
) -> Result<Option<Stand>, Memory>
    requires world { IsWorld world.now }
    requires askable { IsAskable demand.now }
    ensures stand { IfOk result (IsTheStand (λ j values. IsMet (IsInType world.now) (state_in history.old j) demand.now values) most) }
    ensures kept { history.new.flips ≡ history.old.flips }
{
    let mut gap = most;
    'down: loop {
        let mut found = first_in(alloc, demand, history, gap, world)?;
        if let Some(values) = found.values.take() {
            return Ok(Some(Stand { gap, values }));
        }
        if found.since == 0 {
            return Ok(None);
        }
        gap = found.since - 1;
    }
}
