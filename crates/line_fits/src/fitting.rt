ghost use Rattle.std.specs.Prelude.{◌≤◌, ◌+◌, length, IfOk, IfErr};
ghost use Rattle.htn_base.specs.Limits.{most_lines};
ghost use Rattle.plan_texts.specs.SoundlyCompiled.{IsSoundlyCompiled};
ghost use Rattle.value_choices.specs.Worlds.{IsWorldOf};
ghost use Rattle.line_fits.specs.Fitted as spec;
ghost use Rattle.line_fits.specs.ByNumbers as numbers;

use crate::children::fill;
use crate::fitted::{FitError, Fits, MethodFit};
use crate::wanted::Wanted;
use htn_base::{List, Memory};
use method_fits::{Subtask, fitting};
use numbered_lines::{Lines, Split};
use plan_model::Compiled;
use problem_index::World;
use std::alloc::Global;
use std::mem;

/// The first ground method that does what is wanted. `None` where none does. What the lines say is written into `said`.
fn fit<'a>(
    alloc: Global,
    world: &World<'_>,
    c: &Compiled,
    lines: &'a Lines,
    wanted: &Wanted<'_>,
    said: &mut Vec<Subtask<'a>>,
) -> Result<Option<MethodFit>, Memory>
    requires world { IsWorldOf c.now world.now }
    ensures fit { IfOk result (numbers.IsTheFit (numbers.IsWanted lines.now c.now wanted.now)) }
{
    if !fill(lines, wanted.children, said)? {
        return Ok(None);
    }
    match fitting(
        alloc,
        world,
        c,
        wanted.method,
        wanted.task,
        wanted.objects,
        said.as_slice(),
    )? {
        Some(mut fit) => Ok(Some(MethodFit {
            method: wanted.method,
            values: mem::replace(&mut fit.values, List::new(alloc)),
        })),
        None => Ok(None),
    }
}

/// The first ground method that fits the line of a decomposed task. `None` where none does.
fn split_fit<'a>(
    alloc: Global,
    world: &World<'_>,
    c: &Compiled,
    lines: &'a Lines,
    split: &Split,
    said: &mut Vec<Subtask<'a>>,
) -> Result<Option<MethodFit>, Memory>
    requires world { IsWorldOf c.now world.now }
    ensures fit { IfOk result (numbers.IsTheFit (numbers.FitsSplit lines.now c.now split.now)) }
{
    let Some(method) = split.method else {
        return Ok(None);
    };
    let Some(task) = &split.task else {
        return Ok(None);
    };
    let wanted = Wanted {
        method,
        task: task.number as usize,
        objects: task.objects.as_slice(),
        children: split.children.as_slice(),
    };
    fit(alloc, world, c, lines, &wanted, said)
}

/// The ground methods that fit the lines of the decomposed tasks, each the first one.
fn split_fits<'a>(
    alloc: Global,
    world: &World<'_>,
    c: &Compiled,
    lines: &'a Lines,
    said: &mut Vec<Subtask<'a>>,
) -> Result<List<MethodFit>, FitError>
    requires world { IsWorldOf c.now world.now }
    requires few { length lines.now.splits ≤ most_lines }
    ensures fits { IfOk result (numbers.AreSplitFits lines.now c.now lines.now.splits) }
    ensures refused { IfErr result (numbers.RefusesSplits lines.now c.now) }
{
    let splits = lines.splits.as_slice();
    let mut fits = List::new(alloc);
    for place in 0..splits.len() {
        match split_fit(alloc, world, c, lines, &splits[place], said)? {
            Some(fit) => fits.push(fit)?,
            None => {
                return Err(FitError::NoMatch {
                    line: Some(place as u32),
                });
            }
        }
    }
    Ok(fits)
}

/// The ground methods that fit the lines, each the first one.
pub fn fit_lines(
    alloc: Global,
    world: &World<'_>,
    c: &Compiled,
    lines: &Lines,
) -> Result<Fits, FitError>
    requires soundly { IsSoundlyCompiled c.now }
    requires world { IsWorldOf c.now world.now }
    requires few { length lines.now.steps + length lines.now.splits ≤ most_lines }
    ensures fits { IfOk result (spec.AreFitsOf c.now lines.now) }
    ensures refused { IfErr result (spec.RefusesFits c.now lines.now) }
{
    let root = Wanted {
        method: 0,
        task: c.hddl.tasks.len(),
        objects: &[],
        children: lines.root.as_slice(),
    };
    let mut said = Vec::new(alloc);
    match fit(alloc, world, c, lines, &root, &mut said)? {
        Some(root) => {
            let splits = split_fits(alloc, world, c, lines, &mut said)?;
            Ok(Fits { root, splits })
        }
        None => Err(FitError::NoMatch { line: None }),
    }
}
