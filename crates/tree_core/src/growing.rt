ghost use Rattle.std.specs.Prelude.{◌≡◌, ◌<◌, ◌≤◌, None, length, IfOk, IfErr};
ghost use Rattle.htn_base.specs.Limits.{most_steps};
ghost use Rattle.tree_core.specs.Labels.{labels, growths_of};
ghost use Rattle.tree_core.specs.Growths.{AreJoined};
ghost use Rattle.tree_core.specs.Growing.{AreChildren};
ghost use Rattle.tree_core.specs.Runs.{IsRun, IsRefused};
ghost use Rattle.tree_core.specs.LaidOut.{AreLaidOut};

use crate::children::Children;
use crate::defects::first_defect;
use crate::ends::ends_of;
use crate::growth::{GrowError, Growth, Scheduled};
use crate::rows::{list_of, nodes_of, parents_of};
use crate::tree::{Node, Tree};
use crate::walk::{in_preorder, places_of};
use htn_base::{List, Memory};
use std::alloc::Global;

/// The one tree of these growths, in which each stands under its parent at its child number, and the addresses of their
/// nodes in the order in which they come. The tree keeps the growths, and copies none of their labels.
pub fn grow(alloc: Global, steps: List<Growth>) -> Result<Scheduled, GrowError>
    requires { length steps ≤ most_steps }
    ensures tree { IfOk result (λ run. IsRun (growths_of steps) run) }
    ensures unjoined { IfErr result (λ why. IsRefused (growths_of steps) why) }
{
    match laid_out(alloc, steps.as_slice()) {
        Ok((nodes, order)) => {
            let tree = Tree {
                growths: steps,
                nodes,
            };
            Ok(Scheduled { tree, order })
        }
        Err(why) => Err(why),
    }
}

// The nodes of growths by their addresses, and their addresses in the order in which the growths come; or the first place
// at which they are not joined.
fn laid_out(alloc: Global, steps: &[Growth]) -> Result<(List<Node>, List<u32>), GrowError>
    requires { length steps.now ≤ most_steps }
    ensures laid_out { IfOk result (λ laid. AreLaidOut steps.now laid.0 laid.1) }
    ensures unjoined { IfErr result (λ why. IsRefused (growths_of steps.now) why) }
{
    if steps.is_empty() {
        return Err(GrowError::Unjoined { growth: 0 });
    }
    let children = Children::of(alloc, steps)?;
    match first_defect(steps, &children) {
        Some(growth) => Err(GrowError::Unjoined { growth }),
        None => Ok(joined_laid_out(alloc, steps, children)?),
    }
}

// The same of growths that are joined. The children take the most bytes, so they are let go before the other tables are made.
fn joined_laid_out(
    alloc: Global,
    steps: &[Growth],
    children: Children,
) -> Result<(List<Node>, List<u32>), Memory>
    requires few { length steps.now ≤ most_steps }
    requires joined { AreJoined labels (growths_of steps.now) }
    requires children { AreChildren (growths_of steps.now) children }
    ensures { IfOk result (λ laid. AreLaidOut steps.now laid.0 laid.1) }
{
    let nodes = in_preorder(alloc, steps, &children)?;
    drop(children);
    let places = places_of(alloc, nodes.as_slice())?;
    let parents = parents_of(alloc, steps, nodes.as_slice(), places.as_slice())?;
    let ends = ends_of(alloc, parents.as_slice())?;
    let nodes = nodes_of(
        alloc,
        steps,
        nodes.as_slice(),
        parents.as_slice(),
        ends.as_slice(),
    )?;
    let order = list_of(alloc, places.as_slice())?;
    Ok((nodes, order))
}
