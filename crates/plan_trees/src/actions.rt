ghost use Rattle.std.specs.Prelude.{◌≡◌, length, IfOk};
ghost use Rattle.plan_trees.specs.Actions as spec;

use crate::seed::{Seed, Source};
use htn_base::{List, Memory};
use std::alloc::Global;

/// Puts the address of a primitive at the place of its line.
fn note(actions: &mut Vec<u32>, source: Source, address: u32)
    ensures { actions.new.items ≡ spec.noted actions.old.items source address }
{
    if let Source::Step { line } = source {
        if (line as usize) < actions.len() {
            actions[line as usize] = address;
        }
    }
}

/// The numbers as a list.
fn list_of(alloc: Global, numbers: &[u32]) -> Result<List<u32>, Memory>
    ensures { IfOk result (λ list. list ≡ numbers.now) }
{
    let mut list = List::with_room(alloc, numbers.len())?;
    for number in numbers {
        list.push(*number)?;
    }
    Ok(list)
}

/// The addresses of so many primitives in the order of their lines, from the addresses of the seeds' nodes.
pub(crate) fn actions_of(
    alloc: Global,
    seeds: &[Seed],
    order: &[u32],
    primitives: usize,
) -> Result<List<u32>, Memory>
    requires many { length order.now ≡ length seeds.now }
    ensures { IfOk result (spec.AreActions seeds.now order.now primitives) }
{
    let mut actions = vec![in alloc; 0_u32; primitives]?;
    for (place, seed) in seeds.iter().enumerate() {
        note(&mut actions, seed.source, order[place]);
    }
    list_of(alloc, actions.as_slice())
}
