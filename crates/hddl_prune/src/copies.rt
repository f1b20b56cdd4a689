ghost use Rattle.std.specs.Prelude.{◌≡◌, ◌++◌, [], slice_get, IfOk, OnOk};
ghost use Rattle.live_parts.specs.Pruned.{with_first};

use htn_base::{Boxed, List, Memory, NameTable, WordList};
use plan_model::{ActionSchema, Effect, Facts, Predicate, TaskSchema, Types};
use std::alloc::Global;

/// Equal words.
pub(crate) fn copy_names(alloc: Global, names: &WordList) -> Result<WordList, Memory>
    ensures equal { IfOk result (λ copy. copy ≡ names.now) }
{
    let table = NameTable::of(alloc, names)?;
    let words = table.to_list(alloc);
    drop(table);
    words
}

/// Equal types.
pub(crate) fn copy_types(alloc: Global, types: &Types) -> Result<Types, Memory>
    ensures equal { IfOk result (λ copy. copy ≡ types.now) }
{
    let names = types.names.copy(alloc)?;
    let parents = types.parents.copy(alloc)?;
    let unions = copy_unions(alloc, &types.unions)?;
    Ok(Types {
        names,
        parents,
        unions,
    })
}

fn copy_unions(alloc: Global, unions: &List<List<u32>>) -> Result<List<List<u32>>, Memory>
    ensures equal { IfOk result (λ copies. copies ≡ unions.now) }
{
    let listed = unions.as_slice();
    let mut copies = List::new(alloc);
    for members in listed {
        copies.put(members.copy(alloc))?;
    }
    Ok(copies)
}

/// Equal predicates.
pub(crate) fn copy_predicates(
    alloc: Global,
    predicates: &List<Predicate>,
) -> Result<List<Predicate>, Memory>
    ensures equal { IfOk result (λ copies. copies ≡ predicates.now) }
{
    let listed = predicates.as_slice();
    let mut copies = List::new(alloc);
    for predicate in listed {
        copies.put(copy_predicate(alloc, predicate))?;
    }
    Ok(copies)
}

fn copy_predicate(alloc: Global, predicate: &Predicate) -> Result<Predicate, Memory>
    ensures equal { IfOk result (λ copy. copy ≡ predicate.now) }
{
    Ok(Predicate {
        name: predicate.name,
        params: predicate.params.copy(alloc)?,
    })
}

/// Equal facts.
pub(crate) fn copy_facts(alloc: Global, facts: &Facts) -> Result<Facts, Memory>
    ensures equal { IfOk result (λ copies. copies ≡ facts.now) }
{
    let mut copies = Facts::new(alloc);
    let mut args = Vec::new(alloc);
    for i in 0..facts.len() {
        put_fact(facts, i, &mut args, &mut copies)?;
    }
    Ok(copies)
}

/// Puts the fact at place `i` at the end. `args` is room for its objects.
fn put_fact(facts: &Facts, i: usize, args: &mut Vec<u32>, into: &mut Facts) -> Result<(), Memory>
    ensures { OnOk result (into.new ≡ into.old ++ with_first (slice_get facts.now i) []) }
{
    match facts.get(i) {
        Some(fact) => {
            fact.args.copy_into(args)?;
            into.push(fact.predicate, args.as_slice())
        }
        None => Ok(()),
    }
}

/// An equal task.
pub(crate) fn copy_task(alloc: Global, task: &TaskSchema) -> Result<TaskSchema, Memory>
    ensures equal { IfOk result (λ copy. copy ≡ task.now) }
{
    Ok(TaskSchema {
        name: task.name,
        params: task.params.copy(alloc)?,
    })
}

/// An equal action.
pub(crate) fn copy_action(alloc: Global, action: &ActionSchema) -> Result<ActionSchema, Memory>
    ensures equal { IfOk result (λ copy. copy ≡ action.now) }
{
    let params = action.params.copy(alloc)?;
    let pre = action.pre.copy(alloc)?;
    let eff = copy_effect(alloc, &action.eff)?;
    Ok(ActionSchema {
        name: action.name,
        params,
        pre,
        eff,
    })
}

/// An equal effect.
#[cycle(copy_effect)]
fn copy_effect(alloc: Global, effect: &Effect) -> Result<Effect, Memory>
    ensures equal { IfOk result (λ copy. copy ≡ effect.now) }
{
    match effect {
        Effect::Add(atom) => atom.copy(alloc).map(Effect::Add),
        Effect::Delete(atom) => atom.copy(alloc).map(Effect::Delete),
        Effect::And(parts) => copy_effects(alloc, parts).map(Effect::And),
        Effect::Forall(params, body) => {
            let params = params.copy(alloc)?;
            Ok(Effect::Forall(params, copy_boxed(alloc, body)?))
        }
        Effect::When(condition, body) => {
            let condition = condition.copy(alloc)?;
            Ok(Effect::When(condition, copy_boxed(alloc, body)?))
        }
    }
}

#[cycle(copy_effect)]
fn copy_boxed(alloc: Global, effect: &Boxed<Effect>) -> Result<Boxed<Effect>, Memory>
    ensures equal { IfOk result (λ copy. copy ≡ effect.now) }
{
    let copy = copy_effect(alloc, effect.get())?;
    Boxed::new(alloc, copy)
}

#[cycle(copy_effect)]
fn copy_effects(alloc: Global, effects: &List<Effect>) -> Result<List<Effect>, Memory>
    ensures equal { IfOk result (λ copies. copies ≡ effects.now) }
{
    let parts = effects.as_slice();
    let mut copies = List::new(alloc);
    for part in parts {
        copies.put(copy_effect(alloc, part))?;
    }
    Ok(copies)
}
