//! Facts are kept, and types are asked that were worked out by hand.

ghost use Rattle.std.specs.Prelude.{◌≡◌, ◌<◌, All, IfOk, length};
ghost use Rattle.plan_model.specs.Parts.{AreListed, AreListedParents};

use htn_base::{List, Memory, Name};
use plan_model::{Facts, Object, Parent, Types, in_type, members};
use std::alloc::Global;

fn put_facts(facts: &mut Facts) -> Result<(), Memory> {
    facts.push(7, &[4, 5])?;
    facts.push(8, &[6])
}

fn are_facts(facts: &Facts) -> bool {
    match facts.get(1) {
        Some(fact) => {
            let args = (fact.args.len(), fact.args.get(0));
            facts.len() == 2 && fact.predicate == 8 && args == (1, Some(6))
        }
        None => false,
    }
}

#[test]
fn facts(rt: HostRuntime) {
    match Facts::with_room(rt.alloc(), 2, 3) {
        Ok(mut facts) => {
            let put = put_facts(&mut facts).is_ok();
            let right = put && are_facts(&facts) && facts.get(2).is_none();
            drop(facts);
            assert!(rt; right);
        }
        Err(Memory) => panic!(rt; "out of memory"),
    }
}

// The types `hammer saw - tool mallet - hammer`: tool 1, hammer 2, saw 3, mallet 4, and the union 5 of saw and mallet.
fn tools(alloc: Global) -> Result<Types, Memory>
    ensures listed { IfOk result AreListed }
{
    let unions = saw_or_mallet(alloc)?;
    let names = tool_names(alloc)?;
    let parents = tool_parents(alloc)?;
    Ok(Types {
        names,
        parents,
        unions,
    })
}

fn tool_names(alloc: Global) -> Result<List<Name>, Memory>
    ensures { IfOk result (λ names. length names ≡ 5) }
{
    let mut names = List::new(alloc);
    for number in 0..5 {
        names.push(Name { number })?;
    }
    Ok(names)
}

fn tool_parents(alloc: Global) -> Result<List<Parent>, Memory>
    ensures { IfOk result (AreListedParents 5) }
{
    let mut parents = List::new(alloc);
    for child in 0..5 {
        let parent = child / 2;
        parents.push(Parent { child, parent })?;
    }
    Ok(parents)
}

fn saw_or_mallet(alloc: Global) -> Result<List<List<u32>>, Memory>
    ensures listed { IfOk result (All (All (λ member. member < 5))) }
{
    let mut saw = List::new(alloc);
    saw.push(3)?;
    saw.push(4)?;
    let mut unions = List::new(alloc);
    unions.push(saw)?;
    Ok(unions)
}

// an object of each of the types 1 to 4
fn objects(alloc: Global) -> Result<List<Object>, Memory>
    ensures few { IfOk result (λ objects. length objects < 5) }
{
    let mut objects = List::new(alloc);
    for ty in 1..5 {
        let name = Name { number: ty };
        let constant = false;
        objects.push(Object { name, ty, constant })?;
    }
    Ok(objects)
}

fn are_parts(types: &Types) -> bool
    requires { AreListed types.now }
{
    let single = (types.is_a(4, 1), types.is_a(1, 4), types.is_a(4, 3));
    let into = (types.is_a(4, 5), types.is_a(2, 5));
    let union = (types.is_a(5, 1), types.is_a(5, 2));
    let unknown = (types.is_a(9, 0), types.is_a(9, 1));
    single == (true, false, false)
        && into == (true, false)
        && union == (true, false)
        && unknown == (true, false)
}

fn are_in_types(types: &Types, objects: &List<Object>) -> bool
    requires { AreListed types.now }
{
    in_type(types, objects, 3, 1)
        && !in_type(types, objects, 0, 2)
        && !in_type(types, objects, 9, 0)
}

fn has_members(alloc: Global, types: &Types, objects: &List<Object>, ty: u32, want: &[u32]) -> bool
    requires listed { AreListed types.now }
    requires few { length objects.now < 5 }
{
    match members(alloc, types, objects, ty) {
        Ok(found) => {
            let right = found.as_slice() == want;
            drop(found);
            right
        }
        Err(Memory) => false,
    }
}

fn have_members(alloc: Global, types: &Types) -> bool
    requires { AreListed types.now }
{
    match objects(alloc) {
        Ok(objects) => {
            let right = are_in_types(types, &objects)
                && has_members(alloc, types, &objects, 2, &[1, 3])
                && has_members(alloc, types, &objects, 5, &[2, 3]);
            drop(objects);
            right
        }
        Err(Memory) => false,
    }
}

#[test]
fn parts_and_members_of_types(rt: HostRuntime) {
    match tools(rt.alloc()) {
        Ok(types) => {
            let parts = are_parts(&types);
            let members = have_members(rt.alloc(), &types);
            drop(types);
            assert!(rt; parts && members);
        }
        Err(Memory) => panic!(rt; "out of memory"),
    }
}
