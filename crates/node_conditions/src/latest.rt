ghost use Rattle.std.specs.Prelude.{◌≡◌, IfOk};
ghost use Rattle.plan_texts.specs.SoundlyCompiled.{IsSoundlyCompiled};
ghost use Rattle.kept_front.specs.Later.{AreAllLater};
ghost use Rattle.problem_index.specs.Kinds.{IsWorld};
ghost use Rattle.state_history.specs.Histories.{state_in};
ghost use Rattle.node_conditions.specs.Standing.{RowMayStand};
ghost use Rattle.node_conditions.specs.Stands.{Tells, AreTheStands};

use crate::conditions::{NodeConditions, Standing, none_found};
use crate::stands::Stands;
use gap_pass::latest_gaps;
use htn_base::Memory;
use kept_front::Later;
use plan_model::Compiled;
use problem_index::World;
use state_history::History;
use std::alloc::Global;
use std::marker::Brand;
use tree_core::Tree;

/// The latest gaps of a tree of the compiled problem, and the first values of its methods there, or `None` where there is no gap
/// function. `actions` are the addresses of the primitives in their order, and `history` has the states in the gaps between them.
pub fn latest_stands(
    alloc: Global,
    c: &Compiled,
    world: &World<'_>,
    later: &[Later],
    tree: &Tree,
    actions: &[u32],
    history: History,
) -> Result<Option<Stands>, Memory>
    requires soundly { IsSoundlyCompiled c.now }
    requires later { AreAllLater c.now later.now }
    requires world { IsWorld world.now }
    requires types { world.now.types.now ≡ c.now.hddl.types }
    requires objects { world.now.objects.now ≡ c.now.hddl.objects }
    ensures { IfOk result (AreTheStands (RowMayStand c.now tree.now (state_in history)) c.now tree.now actions.now) }
{
    run::<Brand>(alloc, c, world, later, tree, actions, history)
}

/// The same, where it is picked which node may stand in which gap with which values.
fn run<K: Standing>(
    alloc: Global,
    c: &Compiled,
    world: &World<'_>,
    later: &[Later],
    tree: &Tree,
    actions: &[u32],
    history: History,
) -> Result<Option<Stands>, Memory>
    requires soundly { IsSoundlyCompiled c.now }
    requires later { AreAllLater c.now later.now }
    requires tells { Tells K.stands c.now world.now tree.now history }
    ensures { IfOk result (AreTheStands K.stands c.now tree.now actions.now) }
{
    let found = none_found(alloc, tree.size() as usize)?;
    let mut conditions = NodeConditions::<K>::new(c, *world, tree, history, found);
    let Some(gaps) = latest_gaps(alloc, c, later, tree, actions, &mut conditions)? else {
        return Ok(None);
    };
    let values = conditions.each_first(alloc, tree.size(), gaps.as_slice())?;
    Ok(Some(Stands { gaps, values }))
}
