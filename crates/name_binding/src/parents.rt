ghost use Rattle.std.specs.Prelude.{◌≡◌, ◌++◌, fold, map, IfOk, OnOk};
ghost use Rattle.name_binding.specs.Parents.{pairs_for, place_of, pairs_in_order, AreParentsOf};
ghost use Rattle.name_binding.specs.Seen.{with_number};

use crate::first_seen::FirstSeen;
use crate::places::Places;
use gd_reader::{RawParams, RawTerm};
use htn_base::{List, Memory, number};
use plan_model::Parent;
use std::alloc::Global;

/// The pairs of types and parents of a section, by the child's number and then in text order, each once; a type for which none
/// is written has the one pair with `object`.
pub fn parents_of(alloc: Global, types: &Places, listed: &RawParams) -> Result<List<Parent>, Memory>
    ensures pairs { IfOk result (λ pairs. pairs ≡ pairs_in_order types.now listed.now) }
{
    let parents = parents_by_child(alloc, types, listed)?;
    let mut pairs = List::new(alloc);
    for child in 0..parents.len() {
        put_pairs(number(child)?, parents[child].as_slice(), &mut pairs)?;
    }
    Ok(pairs)
}

/// The parents that are written for each type. Those at place 0 don't count.
fn parents_by_child(
    alloc: Global,
    types: &Places,
    listed: &RawParams,
) -> Result<Vec<FirstSeen>, Memory>
    ensures parents { IfOk result (λ parents. AreParentsOf types.now listed.now parents.items) }
{
    let mut parents = Vec::new(alloc);
    for _ in 0..types.len() {
        parents.push(FirstSeen::new(alloc))?;
    }
    for item in listed.as_slice() {
        if let Some(child) = types.get(item.name) {
            put_parents(types, item.ty.as_slice(), &mut parents[child as usize])?;
        }
    }
    Ok(parents)
}

/// Puts the parents that are written behind a word to the others, each once.
fn put_parents(types: &Places, written: &[RawTerm], into: &mut FirstSeen) -> Result<(), Memory>
    ensures put { OnOk result
        (into.new ≡ fold with_number into.old (map (place_of types.now) written.now)) }
{
    for parent in written {
        into.put(types.get(parent.name).unwrap_or(0))?;
    }
    Ok(())
}

/// Puts the pairs of one type behind the others.
fn put_pairs(child: u32, parents: &[u32], into: &mut List<Parent>) -> Result<(), Memory>
    ensures put { OnOk result (into.new ≡ into.old ++ pairs_for child parents.now) }
{
    if child == 0 {
        return Ok(());
    }
    if parents.is_empty() {
        return into.push(Parent { child, parent: 0 });
    }
    for parent in parents {
        into.push(Parent {
            child,
            parent: *parent,
        })?;
    }
    Ok(())
}
