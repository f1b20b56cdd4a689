ghost use Rattle.std.specs.Prelude.{◌≡◌, map, slice_get, IfOk, IfErr};
ghost use Rattle.plan_texts.specs.SoundlyCompiled.{IsSoundlyCompiled};
ghost use Rattle.bound_calc.specs.stratifier.Conditions.{HaveNoCycle, IsSmallCompiled};
ghost use Rattle.bound_calc.specs.Lines.{HaveLines};
ghost use Rattle.ground_bound.specs.GroundBound.{IsGroundBound};
ghost use Rattle.reached_parts.specs.HowMany.{most_reached, IsAtMost};
ghost use Rattle.ground_bound.specs.NoGroundBound.{HasNoGroundBound};
ghost use Rattle.reached_parts.specs.ReachedOf.{IsReachedOf};
ghost use Rattle.bound_calc.specs.stratifier.Listed as listed;
ghost use Rattle.ground_bound.specs.NoGroundBound as refusals;
ghost use Rattle.ground_bound.specs.Grounded as named;
ghost use Rattle.ground_bound.specs.MethodRows.{row};
ghost use Rattle.ground_bound.specs.Bounding as spec;

use crate::ground_error::{GroundEdge, GroundError};
use crate::grounded::grounded;
use crate::in_order::{MethodRow, in_order};
use bound_calc::stratifier::{Edge, StratError, stratify};
use bound_calc::{BoundError, bound};
use htn_base::{List, Memory};
use plan_model::Compiled;
use reached_parts::{Reached, reached};
use std::alloc::Global;

/// The bound over what is reached: the bound of the problem that has a task for each reached ground task and a method for each reached
/// ground method, so that a task counts only what can come of it with its own objects.
pub fn ground_bound(alloc: Global, c: &Compiled) -> Result<u128, GroundError>
    requires soundly { IsSoundlyCompiled c.now }
    ensures bound { IfOk result (IsGroundBound c.now) }
    ensures small { IfOk result (λ n. IsAtMost c.now most_reached) }
    ensures refused { IfErr result (HasNoGroundBound c.now) }
{
    let found = reached(alloc, c)?;
    let made = problem_of(alloc, c, found)?;
    let number = bound_by(alloc, &made.value, made.methods.as_slice());
    drop(made);
    number
}

/// What is reached as a problem without parameters, and the ground methods that its methods are.
struct GroundProblem {
    value: Compiled,
    methods: Vec<MethodRow>,
}

impl Drop for GroundProblem {
    fn drop(self) {
        let GroundProblem {
            value: _,
            methods: _,
        } = self;
    }
}

fn problem_of(alloc: Global, c: &Compiled, found: Reached) -> Result<GroundProblem, Memory>
    requires soundly { IsSoundlyCompiled c.now }
    requires reached { IsReachedOf c.now found }
    ensures problem { IfOk result (λ made. spec.IsProblemOf c.now made.value made.methods.items) }
{
    let methods = in_order(alloc, &found.methods);
    let tasks = found.into_tasks();
    let methods = methods?;
    let value = grounded(alloc, c, &tasks, methods.as_slice())?;
    Ok(GroundProblem { value, methods })
}

/// The bound of the problem without parameters, and where it has none, why, by the ground methods.
fn bound_by(alloc: Global, value: &Compiled, methods: &[MethodRow]) -> Result<u128, GroundError>
    requires small { IsSmallCompiled value.now }
    requires ordered { HaveNoCycle value.now }
    requires lines { HaveLines value.now }
    ensures bound { IfOk result (spec.HasBound value.now) }
    ensures refused { IfErr result (spec.HasNone value.now methods.now) }
{
    match stratify(alloc, value) {
        Ok(ranks) => {
            let number = bound(alloc, value, &ranks);
            drop(ranks);
            match number {
                Ok(number) => Ok(number),
                Err(BoundError::Past128) => Err(GroundError::Past128),
                Err(BoundError::Memory) => Err(GroundError::Memory),
            }
        }
        Err(StratError::Cycle(edges)) => {
            let named = ground_edges(alloc, methods, edges.as_slice());
            drop(edges);
            match named {
                Ok(named) => Err(GroundError::Cycle(named)),
                Err(Memory) => Err(GroundError::Memory),
            }
        }
        Err(StratError::Memory) => Err(GroundError::Memory),
    }
}

/// The same edges with the ground methods of these places.
fn ground_edges(
    alloc: Global,
    methods: &[MethodRow],
    edges: &[Edge],
) -> Result<List<GroundEdge>, Memory>
    ensures named { IfOk result (λ named. spec.AreNamed methods.now edges.now named) }
{
    let mut named = List::with_room(alloc, edges.len())?;
    for edge in edges {
        named.put(ground_edge(alloc, methods, *edge))?;
    }
    Ok(named)
}

/// The edge with the ground method of its method's place.
fn ground_edge(alloc: Global, methods: &[MethodRow], edge: Edge) -> Result<GroundEdge, Memory>
    ensures named { IfOk result (λ it. refusals.edge_of it ≡ named.ground_edge (map row methods.now) (listed.edge_of edge)) }
{
    match methods.get(edge.method as usize) {
        Some(it) => Ok(GroundEdge {
            method: it.number,
            args: list_of(alloc, it.objects.as_slice())?,
            child: edge.child,
        }),
        None => Ok(GroundEdge {
            method: 0,
            args: List::new(alloc),
            child: edge.child,
        }),
    }
}

/// The numbers as a list.
fn list_of(alloc: Global, numbers: &[u32]) -> Result<List<u32>, Memory>
    ensures same { IfOk result (λ list. list ≡ numbers.now) }
{
    let mut list = List::with_room(alloc, numbers.len())?;
    for n in numbers {
        list.push(*n)?;
    }
    Ok(list)
}
