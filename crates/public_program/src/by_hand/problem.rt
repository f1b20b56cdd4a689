//! A problem of one object, which is red and is to be red alone. Its actions make it blue and green in place of red: `paint` by
//! literals, `wash` by a condition within its effect.

ghost use Rattle.std.specs.Prelude.{◌≡◌, IfOk};
ghost use Rattle.htn_base.specs.Table.{IsTable};
ghost use Rattle.plan_model.specs.Parts.{AreListed};
ghost use Rattle.ground_state.specs.Runs.{IsRunnable};
ghost use Rattle.public_program.specs.Numbered.{AreFewObjects, AreFewActions};

use htn_base::{Boxed, List, Memory, Name, NameTable, WordList};
use plan_model::{ActionSchema, Atom, Effect, Facts, Formula, Object, Pddl, Term, Types};
use std::alloc::Global;

const RED: u32 = 0;

const BLUE: u32 = 1;

const GREEN: u32 = 2;

const WORDS: &[&[u8]] = &[b"thing", b"paint", b"wash"];

fn names(alloc: Global) -> Result<WordList, Memory>
    ensures table { IfOk result IsTable }
{
    let mut names = NameTable::new(alloc);
    for word in WORDS {
        names.intern(word)?;
    }
    names.to_list(alloc)
}

pub fn no_types(alloc: Global) -> Types
    ensures { AreListed result }
{
    Types {
        names: List::new(alloc),
        parents: List::new(alloc),
        unions: List::new(alloc),
    }
}

fn objects(alloc: Global) -> Result<List<Object>, Memory>
    ensures { IfOk result AreFewObjects }
{
    let mut objects = List::new(alloc);
    objects.push(Object {
        name: Name { number: 0 },
        ty: 0,
        constant: false,
    })?;
    Ok(objects)
}

fn init(alloc: Global) -> Result<Facts, Memory> {
    let mut facts = Facts::new(alloc);
    facts.push(RED, &[0])?;
    Ok(facts)
}

fn atom(alloc: Global, colour: u32) -> Result<Atom, Memory> {
    let mut args = List::new(alloc);
    args.push(Term::Obj(0))?;
    Ok(Atom {
        predicate: colour,
        args,
    })
}

fn is(alloc: Global, colour: u32) -> Result<Formula, Memory> {
    Ok(Formula::Holds(atom(alloc, colour)?))
}

fn is_not(alloc: Global, colour: u32) -> Result<Formula, Memory> {
    let is = is(alloc, colour)?;
    Ok(Formula::Not(Boxed::new(alloc, is)?))
}

fn goal(alloc: Global) -> Result<Formula, Memory> {
    let mut parts = List::new(alloc);
    parts.put(is(alloc, RED))?;
    parts.put(is_not(alloc, BLUE))?;
    parts.put(is_not(alloc, GREEN))?;
    Ok(Formula::And(parts))
}

fn adds(alloc: Global, colour: u32) -> Result<Effect, Memory> {
    Ok(Effect::Add(atom(alloc, colour)?))
}

fn blue_and_green(alloc: Global) -> Result<Effect, Memory> {
    let mut parts = List::new(alloc);
    parts.put(adds(alloc, BLUE))?;
    parts.put(adds(alloc, GREEN))?;
    Ok(Effect::And(parts))
}

fn where_red(alloc: Global) -> Result<Effect, Memory> {
    let then = Boxed::new(alloc, blue_and_green(alloc)?)?;
    Ok(Effect::When(is(alloc, RED)?, then))
}

/// It is no longer red, and has the other effect.
fn instead(alloc: Global, other: Effect) -> Result<Effect, Memory> {
    let mut parts = List::new(alloc);
    parts.push(other)?;
    parts.push(Effect::Delete(atom(alloc, RED)?))?;
    Ok(Effect::And(parts))
}

/// The action whose name is the word of this number.
fn action(alloc: Global, number: u32, other: Effect) -> Result<ActionSchema, Memory>
    ensures { IfOk result (λ a. a.name.number ≡ number) }
{
    Ok(ActionSchema {
        name: Name { number },
        params: List::new(alloc),
        pre: Formula::And(List::new(alloc)),
        eff: instead(alloc, other)?,
    })
}

fn actions(alloc: Global) -> Result<List<ActionSchema>, Memory>
    ensures { IfOk result (AreFewActions 1) }
{
    let mut actions = List::new(alloc);
    actions.put(action(alloc, 1, blue_and_green(alloc)?))?;
    actions.put(action(alloc, 2, where_red(alloc)?))?;
    Ok(actions)
}

fn problem_of(
    alloc: Global,
    names: WordList,
    objects: List<Object>,
    actions: List<ActionSchema>,
    init: Facts,
    goal: Formula,
) -> Pddl
    requires names { IsTable names }
    requires objects { AreFewObjects objects }
    requires actions { AreFewActions 1 actions }
    ensures { IsRunnable result }
{
    Pddl {
        names,
        domain: Name { number: 0 },
        problem: Name { number: 0 },
        types: no_types(alloc),
        objects,
        predicates: List::new(alloc),
        actions,
        init,
        goal,
    }
}

/// The problem.
pub fn red_alone(alloc: Global) -> Result<Pddl, Memory>
    ensures { IfOk result IsRunnable }
{
    let names = names(alloc)?;
    let objects = objects(alloc)?;
    let init = init(alloc)?;
    let goal = goal(alloc)?;
    let actions = actions(alloc)?;
    Ok(problem_of(alloc, names, objects, actions, init, goal))
}
