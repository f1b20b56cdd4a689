ghost use Rattle.std.specs.Prelude.{◌≤◌, ◌+◌, length, IfOk};
ghost use Rattle.htn_base.specs.Limits.{most_lines};
ghost use Rattle.hplan_text.specs.Printable.{IsSoundHPlan, IsPrintableHPlan, IsPrintableLine, IsPrintableNode, task_ids};
ghost use Rattle.plan_model.specs.declared.values.Compiled.{Compiled as compiled};
ghost use Rattle.plan_model.specs.plan_meaning.Network.{action};
ghost use Rattle.plan_texts.specs.SoundlyCompiled.{IsSoundlyCompiled};
ghost use Rattle.plan_texts.specs.Together.{Together};
ghost use Rattle.plan_texts.specs.Types.{Has, EachIs};
ghost use Rattle.numbered_lines.specs.LinePlaces.{ArePlacesOf};
ghost use Rattle.numbered_lines.specs.WordNumbers.{AreNumbersOf};
ghost use Rattle.numbered_lines.specs.Numbered as spec;

use crate::line_places::LinePlaces;
use crate::lines::{Lines, Said, Split};
use crate::word_numbers::WordNumbers;
use hplan_text::{HLine, HNode, HPlan};
use htn_base::{List, Memory};
use plan_model::Compiled;
use std::alloc::Global;

/// The lines of the plan by numbers.
pub fn numbered(alloc: Global, c: &Compiled, plan: &HPlan) -> Result<Lines, Memory>
    requires soundly { IsSoundlyCompiled c.now }
    requires printable { IsPrintableHPlan plan.now }
    requires sound { IsSoundHPlan plan.now }
    requires few { length plan.now.primitives + length plan.now.nodes ≤ most_lines }
    ensures lines { IfOk result (spec.AreNumbered c.now plan.now) }
{
    let numbers = WordNumbers::of(alloc, c)?;
    match LinePlaces::of(alloc, plan) {
        Ok(places) => {
            let lines = lines(alloc, c, &numbers, &places, plan);
            drop(numbers);
            drop(places);
            lines
        }
        Err(Memory) => {
            drop(numbers);
            Err(Memory)
        }
    }
}

// The lines by these numbers and places.
fn lines(
    alloc: Global,
    c: &Compiled,
    numbers: &WordNumbers,
    places: &LinePlaces,
    plan: &HPlan,
) -> Result<Lines, Memory>
    requires soundly { IsSoundlyCompiled c.now }
    requires printable { IsPrintableHPlan plan.now }
    requires sound { IsSoundHPlan plan.now }
    requires few { length plan.now.primitives + length plan.now.nodes ≤ most_lines }
    requires numbers { AreNumbersOf c.now numbers.now }
    requires places { ArePlacesOf (task_ids plan.now) places.now }
    ensures lines { IfOk result (spec.AreNumbered c.now plan.now) }
{
    let root = places.all(alloc, &plan.root)?;
    let steps = steps(alloc, numbers, &plan.primitives)?;
    let splits = splits(alloc, c, numbers, places, &plan.nodes)?;
    Ok(Lines {
        steps,
        root,
        splits,
    })
}

// The primitive lines by numbers.
fn steps(
    alloc: Global,
    numbers: &WordNumbers,
    lines: &List<HLine>,
) -> Result<List<Option<Said>>, Memory>
    requires printable { EachIs IsPrintableLine lines.now }
    ensures steps { IfOk result (λ steps. (c : compiled) → AreNumbersOf c numbers.now
        → Together (spec.AreSaid c action) lines.now steps) }
{
    let mut steps = List::with_room(alloc, lines.len())?;
    for line in lines.as_slice() {
        steps.put(numbers.action(alloc, line))?;
    }
    Ok(steps)
}

// The lines of decomposed tasks by numbers.
fn splits(
    alloc: Global,
    c: &Compiled,
    numbers: &WordNumbers,
    places: &LinePlaces,
    nodes: &List<HNode>,
) -> Result<List<Split>, Memory>
    requires soundly { IsSoundlyCompiled c.now }
    requires printable { EachIs IsPrintableNode nodes.now }
    requires numbers { AreNumbersOf c.now numbers.now }
    requires places { ArePlacesOf places.now.ids places.now }
    requires few { length places.now.ids ≤ most_lines }
    requires known { EachIs (λ node. EachIs (Has places.now.ids) node.ids) nodes.now }
    ensures splits { IfOk result (Together (spec.IsSplitOf c.now places.now.ids) nodes.now) }
{
    let mut splits = List::with_room(alloc, nodes.len())?;
    for node in nodes.as_slice() {
        splits.put(split(alloc, c, numbers, places, node))?;
    }
    Ok(splits)
}

// The line of a decomposed task by numbers.
fn split(
    alloc: Global,
    c: &Compiled,
    numbers: &WordNumbers,
    places: &LinePlaces,
    node: &HNode,
) -> Result<Split, Memory>
    requires soundly { IsSoundlyCompiled c.now }
    requires printable { IsPrintableNode node.now }
    requires numbers { AreNumbersOf c.now numbers.now }
    requires places { ArePlacesOf places.now.ids places.now }
    requires few { length places.now.ids ≤ most_lines }
    requires known { EachIs (Has places.now.ids) node.now.ids }
    ensures split { IfOk result (spec.IsSplitOf c.now places.now.ids node.now) }
{
    let task = numbers.task(alloc, &node.line)?;
    let method = numbers.method(c, &node.method);
    let children = places.all(alloc, &node.ids)?;
    Ok(Split {
        task,
        method,
        children,
    })
}
