//! The bad cycle that is named: the first bad edge whose end leads back to its start, and of the shortest walks back the
//! one that comes first.

ghost use Rattle.std.specs.Prelude.{ℕ, ◌≡◌, ◌+◌, ◌<◌, ◌↔◌, [], All, Contains, IsTrue, map, None, length, IfOk};
ghost use Rattle.std.specs.List.{slice_index_or};
ghost use Rattle.plan_model.specs.plan_meaning.Strata.{AreEdges};
ghost use Rattle.bound_calc.specs.stratifier.Conditions.{IsSmallCompiled};
ghost use Rattle.bound_calc.specs.stratifier.Listed.{edge_of};
ghost use Rattle.bound_calc.specs.stratifier.Bad.{AreBadMarks};
ghost use Rattle.bound_calc.specs.stratifier.NamedCycle.{AreGroupNumbers, MayBeNamed};
ghost use Rattle.bound_calc.specs.stratifier.NamedSearch.{AreEnds, AreEndsBelow, AreDistances, AreFirstSteps, AreFound, ClosesAt, HasEnds, IsCycleAt, IsEndsOf, IsOneMore, IsSourceOf, IsSourceInto};

use crate::stratifier::by_task::empty_lists;
use crate::stratifier::edge::Edge;
use htn_base::{List, Memory};
use plan_model::{Compiled, Head, MethodPlan};
use std::alloc::Global;

/// The tasks that an edge goes from and to, by their numbers.
#[derive(Clone, Copy)]
pub struct Ends {
    pub from: u32,
    pub to: u32,
}

/// The bad cycle that is named: a bad edge and the walk back; none exactly where the problem is tail-recursive.
/// In `groups` two tasks have one number exactly where each reaches the other.
pub(crate) fn named_cycle(
    alloc: Global,
    c: &Compiled,
    edges: &List<Edge>,
    ends: &[Ends],
    bad: &List<bool>,
    groups: &[u32],
) -> Result<Option<List<Edge>>, Memory>
    requires small { IsSmallCompiled c.now }
    requires edges { AreEdges c.now (map edge_of edges.now) }
    requires ends { AreEnds c.now edges.now ends.now }
    requires bad { AreBadMarks c.now edges.now bad.now }
    requires groups { AreGroupNumbers c.now groups.now }
    ensures named { IfOk result (λ cycle. MayBeNamed c.now cycle) }
{
    let marks = bad.as_slice();
    for (k, e) in ends.iter().enumerate() {
        if marks[k] && groups[e.from as usize] == groups[e.to as usize] {
            let cycle = cycle_from(alloc, c, edges.as_slice(), ends, k)?;
            return Ok(Some(cycle));
        }
    }
    Ok(None)
}

/// The ends of all edges.
pub(crate) fn all_ends(alloc: Global, c: &Compiled, edges: &List<Edge>) -> Result<Vec<Ends>, Memory>
    requires small { IsSmallCompiled c.now }
    requires edges { AreEdges c.now (map edge_of edges.now) }
    ensures ends { IfOk result (λ ends. AreEnds c.now edges.now ends.items) }
{
    let methods = c.methods.as_slice();
    let mut ends = Vec::new(alloc);
    for edge in edges.as_slice() {
        ends.push(ends_of(methods, *edge))?;
    }
    Ok(ends)
}

/// The method's task and the child's.
fn ends_of(methods: &[MethodPlan], edge: Edge) -> Ends
    requires there { HasEnds methods.now edge }
    ensures ends { IsEndsOf methods.now edge result }
{
    let schema = &methods[edge.method as usize].schema;
    match schema.children.as_slice()[edge.child as usize].head {
        Head::Task(to) => Ends {
            from: schema.task,
            to,
        },
        _ => unreachable!(),
    }
}

/// The edge at this place, and of the shortest walks from its end to its start the one that comes first.
fn cycle_from(
    alloc: Global,
    c: &Compiled,
    edges: &[Edge],
    ends: &[Ends],
    first: usize,
) -> Result<List<Edge>, Memory>
    requires small { IsSmallCompiled c.now }
    requires ends { AreEnds c.now edges.now ends.now }
    requires first { first < length ends.now }
    requires closes { ClosesAt c.now edges.now first }
    ensures cycle { IfOk result (λ cycle. IsCycleAt c.now edges.now first cycle) }
{
    let count = c.hddl.tasks.len() + 1;
    let link = ends[first];
    let distances = distances(alloc, count, ends, link.from)?;
    let steps = first_steps(alloc, ends, distances.as_slice())?;
    let mut cycle = List::new(alloc);
    cycle.push(edges[first])?;
    let mut task = link.to;
    while let Some(k) = steps[task as usize] {
        cycle.push(edges[k])?;
        task = ends[k].to;
    }
    Ok(cycle)
}

/// For each task the first edge from it that goes one step nearer.
fn first_steps(
    alloc: Global,
    ends: &[Ends],
    distances: &[Option<usize>],
) -> Result<Vec<Option<usize>>, Memory>
    requires within { AreEndsBelow (length distances.now) ends.now }
    ensures steps { IfOk result (λ steps. AreFirstSteps ends.now distances.now steps.items) }
{
    let mut steps = nothing(alloc, distances.len())?;
    for (k, e) in ends.iter().enumerate() {
        let from = e.from as usize;
        if steps[from].is_none() && is_one_more(distances[from], distances[e.to as usize]) {
            steps[from] = Some(k);
        }
    }
    Ok(steps)
}

/// Whether both are there, and the first is one more than the second.
fn is_one_more(from: Option<usize>, to: Option<usize>) -> bool
    ensures { IsTrue result ↔ IsOneMore from to }
{
    match from {
        Some(n) => n > 0 && to == Some(n - 1),
        None => false,
    }
}

/// For each of so many tasks the number of edges of a shortest walk to the goal, if one leads there.
fn distances(
    alloc: Global,
    count: usize,
    ends: &[Ends],
    goal: u32,
) -> Result<Vec<Option<usize>>, Memory>
    requires goal { goal < count }
    requires within { AreEndsBelow count ends.now }
    ensures room { IfOk result (λ found. length found.items ≡ count) }
    ensures distances { IfOk result (λ found. AreDistances ends.now goal found.items) }
{
    let sources = sources_by_task(alloc, count, ends)?;
    let mut found = nothing(alloc, count)?;
    found[goal as usize] = Some(0);
    let mut tasks = vec![in alloc; goal]?;
    let mut distance = 0;
    while !tasks.is_empty() {
        distance += 1;
        tasks = next_tasks(
            alloc,
            &mut found,
            sources.as_slice(),
            tasks.as_slice(),
            distance,
        )?;
    }
    Ok(found)
}

/// So many times `None`.
fn nothing(alloc: Global, count: usize) -> Result<Vec<Option<usize>>, Memory>
    ensures room { IfOk result (λ items. length items.items ≡ count) }
    ensures empty { IfOk result (λ items. (i : ℕ) → slice_index_or items.items i None ≡ None) }
{
    let items = vec![in alloc; None; count]?;
    Ok(items)
}

/// Gives the distance to those that lead to one of the tasks and have none yet, and lists them.
fn next_tasks(
    alloc: Global,
    found: &mut Vec<Option<usize>>,
    sources: &[List<u32>],
    tasks: &[u32],
    distance: usize,
) -> Result<Vec<u32>, Memory>
    requires tasks { All (λ t. t < length sources.now) tasks.now }
    requires sources { All (All (λ t. t < length found.old.items)) sources.now }
    ensures found { IfOk result (λ next. AreFound (IsSourceOf sources.now tasks.now) distance
        found.old.items found.new.items next.items) }
{
    let mut next = Vec::new(alloc);
    for task in tasks {
        for source in sources[*task as usize].as_slice() {
            if found[*source as usize].is_none() {
                found[*source as usize] = Some(distance);
                next.push(*source)?;
            }
        }
    }
    Ok(next)
}

/// For each of so many tasks those from which an edge leads to it.
pub(crate) fn sources_by_task(
    alloc: Global,
    count: usize,
    ends: &[Ends],
) -> Result<Vec<List<u32>>, Memory>
    requires within { AreEndsBelow count ends.now }
    ensures room { IfOk result (λ lists. length lists.items ≡ count) }
    ensures sources { IfOk result (λ lists. (t s : ℕ) →
        Contains (slice_index_or lists.items t []) s ↔ IsSourceInto ends.now s t) }
{
    let mut lists = empty_lists(alloc, count)?;
    for e in ends {
        lists[e.to as usize].push(e.from)?;
    }
    Ok(lists)
}
