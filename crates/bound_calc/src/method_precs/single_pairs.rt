ghost use Rattle.std.specs.Prelude.{◌≡◌, ◌<◌, not, IfOk, length};
ghost use Rattle.plan_model.specs.plan_meaning.Compilation as spec;
ghost use Rattle.plan_model.specs.net_order.Marks.{marked, IsSquare};
ghost use Rattle.plan_model.specs.net_order.Meaning.{AreBelow};
ghost use Rattle.bound_calc.specs.method_precs.Pairs.{with_pair};

use htn_base::{List, Memory};
use plan_model::Pair;
use plan_model::net_order::{ChildSet, empty_sets};
use std::alloc::Global;

/// Each pair of so many children at its first place alone. It takes memory for a bit for each pair that there may be.
pub fn single_pairs(alloc: Global, count: usize, pairs: &[Pair]) -> Result<List<Pair>, Memory>
    requires within { AreBelow count pairs.now }
    ensures single { IfOk result (λ single. single ≡ spec.once spec.same_pair pairs.now) }
{
    let mut seen = empty_sets(alloc, count)?;
    let mut single = List::new(alloc);
    for pair in pairs {
        if is_new(&mut seen, pair) {
            single.push(*pair)?;
        }
    }
    Ok(single)
}

/// Puts the pair's first child into the set of the second one. It tells whether it was not there.
fn is_new(seen: &mut [ChildSet], pair: &Pair) -> bool
    requires square { IsSquare (length seen.old) seen.old }
    requires first { pair.now.first < length seen.old }
    requires then_ { pair.now.then < length seen.old }
    ensures told { result ≡ not (marked seen.old pair.now.first pair.now.then) }
    ensures seen { seen.new ≡ with_pair seen.old pair.now }
{
    let set = &mut seen[pair.then as usize];
    let new = !set.contains(pair.first as usize);
    set.insert(pair.first as usize);
    new
}
