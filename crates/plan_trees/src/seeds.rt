ghost use Rattle.std.specs.Prelude.{◌≡◌, ◌≤◌, ◌<◌, ◌+◌, ◌-◌, ◌++◌, ◌∷◌, [], map, length, Some, None, OnOk, IfOk};
ghost use Rattle.htn_base.specs.Limits.{most_steps, most_lines};
ghost use Rattle.plan_texts.specs.SoundlyCompiled.{IsSoundlyCompiled};
ghost use Rattle.plan_trees.specs.Sources as spec;
ghost use Rattle.plan_trees.specs.Seeds.{AreJoinedSeeds, AreSeedsOf};

use crate::labels::fit_of;
use crate::seed::{Seed, Source};
use htn_base::limits::MOST_STEPS;
use htn_base::{List, Memory};
use line_fits::Fits;
use numbered_lines::Lines;
use plan_model::Compiled;
use std::alloc::Global;

/// The lines that a decomposed task lists.
fn listed(lines: &Lines, task: Option<u32>) -> &[u32]
    ensures { result.now ≡ spec.listed lines.now task }
{
    match task {
        Some(line) => match lines.splits.get(line as usize) {
            Some(split) => split.children.as_slice(),
            None => &[],
        },
        None => lines.root.as_slice(),
    }
}

/// Whether the method of a decomposed task has a check.
fn is_checked(c: &Compiled, fits: &Fits, task: Option<u32>) -> bool
    ensures { result ≡ spec.is_checked c.now (spec.fit_of fits.now task) }
{
    let Some(fit) = fit_of(fits, task) else {
        return false;
    };
    match c.methods.get(fit.method as usize) {
        Some(plan) => plan.checked,
        None => false,
    }
}

/// What stands at the line of this place, where so many are primitive.
fn source_at(primitives: usize, place: u32) -> Source
    ensures { result ≡ spec.source_at primitives place }
{
    if (place as usize) < primitives {
        Source::Step { line: place }
    } else {
        Source::Task {
            line: Some(place - primitives as u32),
        }
    }
}

/// One more child of the parent, whose children begin at the start. A tree has no more than so many nodes, so that nothing is put where
/// there are as many: this ends lines that go round, which no plan has.
fn put(seeds: &mut List<Seed>, start: usize, parent: u32, source: Source) -> Result<(), Memory>
    requires start { start ≤ length seeds.old }
    requires few { length seeds.old ≤ most_steps }
    ensures few { length seeds.new ≤ most_steps }
    ensures more { length seeds.old ≤ length seeds.new }
    ensures put { OnOk result
        (seeds.new ≡ spec.with_children seeds.old parent (length seeds.old - start) (source ∷ [])) }
{
    if seeds.len() >= MOST_STEPS as usize {
        return Ok(());
    }
    let child = (seeds.len() - start) as u32;
    seeds.push(Seed {
        source,
        parent: Some(parent),
        child,
    })
}

/// The lines at these places as further children.
fn put_lines(
    seeds: &mut List<Seed>,
    start: usize,
    parent: u32,
    primitives: usize,
    places: &[u32],
) -> Result<(), Memory>
    requires start { start ≤ length seeds.old }
    requires few { length seeds.old ≤ most_steps }
    ensures few { length seeds.new ≤ most_steps }
    ensures put { OnOk result (seeds.new
        ≡ spec.with_children seeds.old parent (length seeds.old - start) (map (spec.source_at primitives) places.now)) }
{
    for place in places {
        put(seeds, start, parent, source_at(primitives, *place))?;
    }
    Ok(())
}

/// All that stands below a decomposed task: the check of its method, if it has one, and the lines that it lists.
fn put_task(
    seeds: &mut List<Seed>,
    c: &Compiled,
    lines: &Lines,
    fits: &Fits,
    parent: u32,
    task: Option<u32>,
) -> Result<(), Memory>
    requires few { length seeds.old ≤ most_steps }
    ensures few { length seeds.new ≤ most_steps }
    ensures put { OnOk result
        (seeds.new ≡ spec.with_children seeds.old parent 0 (spec.sources_below c.now lines.now fits.now task)) }
{
    let start = seeds.len();
    if is_checked(c, fits, task) {
        put(seeds, start, parent, Source::Check { line: task })?;
    }
    put_lines(seeds, start, parent, lines.steps.len(), listed(lines, task))
}

/// All that stands below this.
fn put_below(
    seeds: &mut List<Seed>,
    c: &Compiled,
    lines: &Lines,
    fits: &Fits,
    parent: u32,
    source: Source,
) -> Result<(), Memory>
    requires few { length seeds.old ≤ most_steps }
    ensures few { length seeds.new ≤ most_steps }
    ensures put { OnOk result
        (seeds.new ≡ spec.with_children seeds.old parent 0 (spec.all_below c.now lines.now fits.now source)) }
{
    match source {
        Source::Task { line } => put_task(seeds, c, lines, fits, parent, line),
        Source::Step { line: _ } | Source::Check { line: _ } => Ok(()),
    }
}

/// The seeds of all nodes, each behind its parent's: those of the children of the first, of the second, and so on.
pub(crate) fn seeds_of(
    alloc: Global,
    c: &Compiled,
    lines: &Lines,
    fits: &Fits,
) -> Result<List<Seed>, Memory>
    requires soundly { IsSoundlyCompiled c.now }
    requires lines { length lines.now.steps + length lines.now.splits ≤ most_lines }
    ensures few { IfOk result (λ seeds. length seeds ≤ most_steps) }
    ensures joined { IfOk result (λ seeds. AreJoinedSeeds seeds (length seeds)) }
    ensures seeds { IfOk result (AreSeedsOf c.now lines.now fits.now) }
{
    let mut seeds = List::new(alloc);
    seeds.push(Seed {
        source: Source::Task { line: None },
        parent: None,
        child: 0,
    })?;
    for place in 0..MOST_STEPS {
        let Some(seed) = seeds.get(place as usize) else {
            return Ok(seeds);
        };
        let source = seed.source;
        put_below(&mut seeds, c, lines, fits, place, source)?;
    }
    Ok(seeds)
}
