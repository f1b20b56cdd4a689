ghost use Rattle.std.specs.Prelude.{◌≡◌, ◌<◌, ◌≤◌, ◌+◌, length, IfOk};
ghost use Rattle.std.specs.Prelude.{slice_get, Some};
ghost use Rattle.htn_base.specs.Limits.{most_steps};
ghost use Rattle.tree_core.specs.Tables.{Row, table};
ghost use Rattle.tree_core.specs.Labels.{labels};
ghost use Rattle.tree_core.specs.Growing.{OfParents, AreEnds, AreLater};

use htn_base::Memory;
use std::alloc::Global;

// The place after the subtree of each node, of nodes in preorder of which each has its parent's place.
pub(crate) fn ends_of(alloc: Global, parents: &[Option<u32>]) -> Result<Vec<u32>, Memory>
    requires few { length parents.now ≤ most_steps }
    ensures ends { IfOk result (λ ends. OfParents parents.now (AreEnds 0 ends.items)) }
    ensures many { IfOk result (λ ends. length ends.items ≡ length parents.now) }
{
    let mut ends = vec![in alloc; 0_u32; parents.len()]?;
    for behind in 0..parents.len() {
        let place = parents.len() - 1 - behind;
        ends[place] = end_of(parents, ends.as_slice(), place);
    }
    Ok(ends)
}

// The place after the subtree of the node: behind its last child, if it has any.
fn end_of(parents: &[Option<u32>], ends: &[u32], place: usize) -> u32
    requires few { length parents.now ≤ most_steps }
    requires many { length ends.now ≡ length parents.now }
    requires place { place < length parents.now }
    requires later { AreLater (length parents.now) (place + 1) ends.now }
    requires ends { OfParents parents.now (AreEnds (place + 1) ends.now) }
    ensures later { (place < result) × (result ≤ length parents.now) }
    ensures end { OfParents parents.now
        (λ tree. (r : Row labels) → slice_get (table labels tree) place ≡ Some r → r.end ≡ result) }
{
    let mut end = place + 1;
    while end < parents.len() && parents[end] == Some(place as u32) {
        end = ends[end] as usize;
    }
    end as u32
}
