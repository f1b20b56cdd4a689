ghost use Rattle.std.specs.Prelude.{◌≤◌, ◌+◌, length, IfOk};
ghost use Rattle.htn_base.specs.Limits.{most_lines};
ghost use Rattle.plan_texts.specs.SoundlyCompiled.{IsSoundlyCompiled};
ghost use Rattle.plan_trees.specs.PlanTrees as spec;

use crate::actions::actions_of;
use crate::labels::growths_of;
use crate::plan_tree::PlanTree;
use crate::seeds::seeds_of;
use htn_base::Memory;
use line_fits::Fits;
use numbered_lines::Lines;
use plan_model::Compiled;
use std::alloc::Global;
use tree_core::{GrowError, grow};

/// The tree of the plan with these lines, where these ground methods fit them.
pub fn tree_of(alloc: Global, c: &Compiled, lines: &Lines, fits: &Fits) -> Result<PlanTree, Memory>
    requires soundly { IsSoundlyCompiled c.now }
    requires few { length lines.now.steps + length lines.now.splits ≤ most_lines }
    ensures tree { IfOk result (spec.IsPlanTreeOf c.now lines.now fits.now) }
{
    let seeds = seeds_of(alloc, c, lines, fits)?;
    let growths = growths_of(alloc, c, lines, fits, seeds.as_slice())?;
    let run = match grow(alloc, growths) {
        Ok(run) => run,
        Err(GrowError::Memory) => return Err(Memory),
        Err(GrowError::Unjoined { growth: _ }) => unreachable!(),
    };
    let order = run.order.as_slice();
    let actions = actions_of(alloc, seeds.as_slice(), order, lines.steps.len())?;
    Ok(PlanTree {
        tree: run.into_tree(),
        actions,
    })
}
