//! Two objects, red and blue at first by turns, under one effect with a condition in a quantifier. What is true in each gap, and
//! since when, was worked out by hand.

ghost use Rattle.std.specs.Prelude.{◌≡◌, ◌<◌, ◌^◌, length, IfOk};
ghost use Rattle.plan_model.specs.Parts.{AreListed};

use crate::{History, Look};
use htn_base::{Boxed, List, Memory, Name};
use plan_model::{Atom, Effect, Facts, Formula, Object, Param, Term, Types};
use problem_index::World;
use std::alloc::Global;
use std::test::Fail;

const RED: u32 = 0;

const BLUE: u32 = 1;

fn no_types(alloc: Global) -> Types
    ensures { AreListed result }
{
    Types {
        names: List::new(alloc),
        parents: List::new(alloc),
        unions: List::new(alloc),
    }
}

fn two_objects(alloc: Global) -> Result<List<Object>, Memory>
    ensures { IfOk result (λ objects. length objects < 2 ^ 32) }
{
    let object = Object {
        name: Name { number: 0 },
        ty: 0,
        constant: false,
    };
    let mut objects = List::new(alloc);
    objects.push(object)?;
    objects.push(object)?;
    Ok(objects)
}

fn one_param(alloc: Global) -> Result<List<Param>, Memory> {
    let mut params = List::new(alloc);
    params.push(Param {
        name: Name { number: 0 },
        ty: 0,
    })?;
    Ok(params)
}

fn atom(alloc: Global, predicate: u32, term: Term) -> Result<Atom, Memory> {
    let mut args = List::new(alloc);
    args.push(term)?;
    Ok(Atom { predicate, args })
}

fn is(alloc: Global, predicate: u32) -> Result<Formula, Memory> {
    Ok(Formula::Holds(atom(alloc, predicate, Term::Var(0))?))
}

/// Some object is red and blue.
fn some_both(alloc: Global) -> Result<Formula, Memory> {
    let mut both = List::new(alloc);
    both.put(is(alloc, RED))?;
    both.put(is(alloc, BLUE))?;
    let body = Boxed::new(alloc, Formula::And(both))?;
    Ok(Formula::Exists(one_param(alloc)?, body))
}

/// Each red object is blue.
fn red_are_blue(alloc: Global) -> Result<Formula, Memory> {
    let red = Boxed::new(alloc, is(alloc, RED)?)?;
    let blue = Boxed::new(alloc, is(alloc, BLUE)?)?;
    let body = Boxed::new(alloc, Formula::Imply(red, blue))?;
    Ok(Formula::Forall(one_param(alloc)?, body))
}

/// Each red object becomes blue in place of red.
fn painted(alloc: Global) -> Result<Effect, Memory> {
    let mut both = List::new(alloc);
    both.push(Effect::Delete(atom(alloc, RED, Term::Var(0))?))?;
    both.push(Effect::Add(atom(alloc, BLUE, Term::Var(0))?))?;
    let both = Boxed::new(alloc, Effect::And(both))?;
    let body = Boxed::new(alloc, Effect::When(is(alloc, RED)?, both))?;
    Ok(Effect::Forall(one_param(alloc)?, body))
}

/// The same, and the second object becomes red, although it is deleted too.
fn effect(alloc: Global) -> Result<Effect, Memory> {
    let mut parts = List::new(alloc);
    parts.put(painted(alloc))?;
    parts.push(Effect::Add(atom(alloc, RED, Term::Obj(1))?))?;
    parts.push(Effect::Delete(atom(alloc, RED, Term::Obj(1))?))?;
    Ok(Effect::And(parts))
}

fn is_look(look: Look, truth: bool, since: u32) -> bool {
    look.truth == truth && look.since == since
}

// Red in gap 0: the first. In gap 1: the second; blue: the first. In gaps 2 and 3 red: the second; blue: both.
#[test]
fn looks(rt: HostRuntime) -> Result<(), Fail> {
    let alloc = rt.alloc();
    let types = no_types(alloc);
    let objects = two_objects(alloc)?;
    let world = World {
        types: &types,
        objects: &objects,
        kinds: None,
    };
    let mut init = Facts::new(alloc);
    init.push(RED, &[0])?;
    let mut history = History::new(alloc, &init)?;
    let effect = effect(alloc)?;
    for _ in 0..3u32 {
        history.push(alloc, &effect, &[], &world)?;
    }
    assert!(rt; history.last() == 3);
    let both = some_both(alloc)?;
    let each = red_are_blue(alloc)?;
    let red = is(alloc, RED)?;
    for (gap, truth, since) in [
        (0, false, 0),
        (1, false, 1),
        (2, true, 2),
        (3, true, 2),
        (4, true, 2),
    ] {
        assert!(rt; is_look(history.look(&both, &[], gap, &world)?, truth, since));
        assert!(rt; is_look(history.look(&each, &[], gap, &world)?, truth, since));
    }
    for (gap, truth, since) in [(0, true, 0), (1, false, 1), (3, false, 1)] {
        assert!(rt; is_look(history.look(&red, &[0], gap, &world)?, truth, since));
    }
    Ok(())
}
