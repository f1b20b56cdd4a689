ghost use Rattle.std.specs.Prelude.{◌≡◌, map, slice_get, IfOk};
ghost use Rattle.std.specs.Option.{option_copied};
ghost use Rattle.plan_trees.specs.Sources as spec;

use crate::seed::{Seed, Source};
use htn_base::{List, Memory};
use line_fits::{Fits, MethodFit};
use numbered_lines::{Lines, Said};
use plan_model::Compiled;
use std::alloc::Global;
use tree_core::{Growth, Label};

/// What stands for a line that is in no plan.
fn no_label(alloc: Global) -> Label
    ensures { result ≡ spec.no_label }
{
    Label::Check {
        method: 0,
        args: List::new(alloc),
    }
}

/// The same for a line of a decomposed task.
fn no_task(alloc: Global) -> Label
    ensures { result ≡ spec.no_task }
{
    Label::Abstract {
        task: 0,
        args: List::new(alloc),
        method: 0,
        method_args: List::new(alloc),
    }
}

/// The method of a decomposed task.
pub(crate) fn fit_of(fits: &Fits, line: Option<u32>) -> Option<&MethodFit>
    ensures { option_copied result ≡ spec.fit_of fits.now line }
{
    match line {
        Some(line) => fits.splits.get(line as usize),
        None => Some(&fits.root),
    }
}

/// The label of a primitive line.
fn step_label(alloc: Global, lines: &Lines, line: u32) -> Result<Label, Memory>
    ensures { IfOk result (λ label. label ≡ spec.step_label (slice_get lines.now.steps line)) }
{
    match lines.steps.get(line as usize) {
        Some(Some(said)) => Ok(Label::Primitive {
            action: said.number,
            args: said.objects.copy(alloc)?,
        }),
        _ => Ok(no_label(alloc)),
    }
}

/// The label of the root.
fn root_label(alloc: Global, c: &Compiled, fit: &MethodFit) -> Result<Label, Memory>
    ensures { IfOk result (λ label. label ≡ spec.root_label c.now fit.now) }
{
    Ok(Label::Abstract {
        task: c.hddl.top.task,
        args: List::new(alloc),
        method: fit.method,
        method_args: fit.values.copy(alloc)?,
    })
}

/// The label of a task that this method decomposes.
fn task_label(alloc: Global, said: &Said, fit: &MethodFit) -> Result<Label, Memory>
    ensures { IfOk result (λ label. label ≡ spec.task_label said.now fit.now) }
{
    let args = said.objects.copy(alloc)?;
    Ok(Label::Abstract {
        task: said.number,
        args,
        method: fit.method,
        method_args: fit.values.copy(alloc)?,
    })
}

/// The label of the line of a decomposed task.
fn split_label(alloc: Global, lines: &Lines, fits: &Fits, line: u32) -> Result<Label, Memory>
    ensures { IfOk result (λ label. label ≡ spec.split_label (slice_get lines.now.splits line) (slice_get fits.now.splits line)) }
{
    let Some(split) = lines.splits.get(line as usize) else {
        return Ok(no_task(alloc));
    };
    let Some(said) = &split.task else {
        return Ok(no_task(alloc));
    };
    match fits.splits.get(line as usize) {
        Some(fit) => task_label(alloc, said, fit),
        None => Ok(no_task(alloc)),
    }
}

/// The label of the check of a decomposed task's method.
fn check_label(alloc: Global, fits: &Fits, line: Option<u32>) -> Result<Label, Memory>
    ensures { IfOk result (λ label. label ≡ spec.check_label (spec.fit_of fits.now line)) }
{
    match fit_of(fits, line) {
        Some(fit) => Ok(Label::Check {
            method: fit.method,
            args: fit.values.copy(alloc)?,
        }),
        None => Ok(no_label(alloc)),
    }
}

/// The label of a node at which this stands.
fn label(
    alloc: Global,
    c: &Compiled,
    lines: &Lines,
    fits: &Fits,
    source: Source,
) -> Result<Label, Memory>
    ensures { IfOk result (λ label. label ≡ spec.label c.now lines.now fits.now source) }
{
    match source {
        Source::Step { line } => step_label(alloc, lines, line),
        Source::Task { line: None } => root_label(alloc, c, &fits.root),
        Source::Task { line: Some(line) } => split_label(alloc, lines, fits, line),
        Source::Check { line } => check_label(alloc, fits, line),
    }
}

/// The growth of a seed.
fn growth(
    alloc: Global,
    c: &Compiled,
    lines: &Lines,
    fits: &Fits,
    seed: &Seed,
) -> Result<Growth, Memory>
    ensures { IfOk result (λ growth. growth ≡ spec.growth c.now lines.now fits.now seed.now) }
{
    Ok(Growth {
        parent: seed.parent,
        child: seed.child,
        label: label(alloc, c, lines, fits, seed.source)?,
    })
}

/// The growths of the seeds.
pub(crate) fn growths_of(
    alloc: Global,
    c: &Compiled,
    lines: &Lines,
    fits: &Fits,
    seeds: &[Seed],
) -> Result<List<Growth>, Memory>
    ensures { IfOk result (λ growths. growths ≡ map (spec.growth c.now lines.now fits.now) seeds.now) }
{
    let mut growths = List::with_room(alloc, seeds.len())?;
    for seed in seeds {
        growths.put(growth(alloc, c, lines, fits, seed))?;
    }
    Ok(growths)
}
