ghost use Rattle.std.specs.Prelude.{◌≡◌, ◌≤◌, ◌+◌, length, IfOk, IfErr};
ghost use Rattle.htn_base.specs.Limits.{most_lines};
ghost use Rattle.hplan_text.specs.Printable.{IsSoundHPlan, IsPrintableHPlan};
ghost use Rattle.plan_texts.specs.SoundlyCompiled.{IsSoundlyCompiled};
ghost use Rattle.value_choices.specs.Worlds.{IsWorldOf};
ghost use Rattle.numbered_lines.specs.Numbered.{AreNumbered};
ghost use Rattle.plan_trees.specs.PlanTrees.{IsPlanTree};
ghost use Rattle.plan_placer.specs.Placing.{RefusesPlace};
ghost use Rattle.plan_placer.specs.Planting.{id_at};

use crate::place_error::PlaceError;
use hplan_text::HPlan;
use line_fits::{FitError, fit_lines};
use numbered_lines::Lines;
use plan_model::Compiled;
use plan_trees::{PlanTree, tree_of};
use problem_index::World;
use std::alloc::Global;

/// The tree of the plan, whose lines have these numbers, where ground methods fit them.
pub(crate) fn planted(
    alloc: Global,
    c: &Compiled,
    world: &World<'_>,
    plan: &HPlan,
    lines: &Lines,
) -> Result<PlanTree, PlaceError>
    requires soundly { IsSoundlyCompiled c.now }
    requires world { IsWorldOf c.now world.now }
    requires printable { IsPrintableHPlan plan.now }
    requires sound { IsSoundHPlan plan.now }
    requires few { length plan.now.primitives + length plan.now.nodes ≤ most_lines }
    requires numbered { AreNumbered c.now plan.now lines.now }
    ensures tree { IfOk result (IsPlanTree c.now plan.now) }
    ensures refused { IfErr result (RefusesPlace c.now plan.now) }
{
    let fits = match fit_lines(alloc, world, c, lines) {
        Ok(fits) => fits,
        Err(FitError::NoMatch { line }) => {
            let id = id_of(plan, line);
            return Err(PlaceError::NoMatch { id });
        }
        Err(FitError::Memory) => return Err(PlaceError::Memory),
    };
    let tree = tree_of(alloc, c, lines, &fits)?;
    Ok(tree)
}

/// The id of the line of a decomposed task, if it is one.
fn id_of(plan: &HPlan, line: Option<u32>) -> Option<u64>
    ensures { result ≡ id_at plan.now line }
{
    let place = line?;
    let node = plan.nodes.get(place as usize)?;
    Some(node.line.id)
}
