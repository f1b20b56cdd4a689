//! A state is made, asked and changed once with ample memory.

ghost use Rattle.std.specs.Prelude.{IfOk};
ghost use Rattle.ground_state.specs.Frames.{Frame};
ghost use Rattle.ground_state.specs.Room.{Fits, EffectFits};

use crate::by_hand::problem::no_types;
use ground_state::{Env, State, holds};
use htn_base::{List, Memory};
use plan_model::{Atom, Effect, Facts, Formula, GroundAtom, Term};
use std::alloc::Global;
use std::test::Fail;

// The first predicate, of the first object.
fn fact(alloc: Global) -> Result<GroundAtom, Memory> {
    let mut args = List::new(alloc);
    args.push(0)?;
    Ok(GroundAtom { predicate: 0, args })
}

// The first predicate is no longer true of the first variable.
fn gone(alloc: Global) -> Result<Effect, Memory>
    ensures { IfOk result (λ effect. (env : Frame) → EffectFits env effect) }
{
    let mut args = List::new(alloc);
    args.push(Term::Var(0))?;
    Ok(Effect::Delete(Atom { predicate: 0, args }))
}

// The first variable is the first object.
fn same() -> Formula
    ensures { (env : Frame) → Fits env result }
{
    Formula::Equal(Term::Var(0), Term::Obj(0))
}

#[test]
fn states(rt: HostRuntime) -> Result<(), Fail> {
    let fact = fact(rt.alloc())?;
    let mut atoms = Facts::new(rt.alloc());
    atoms.push(fact.predicate, fact.args.as_slice())?;
    let mut state = State::new(rt.alloc(), &atoms)?;
    let mut env = Env::new(rt.alloc(), &fact.args, 1, 1)?;
    let types = no_types(rt.alloc());
    let objects = List::new(rt.alloc());
    assert!(rt; state.has(&fact));
    assert!(rt; holds(&same(), &mut env, &state, &types, &objects));
    let effect = gone(rt.alloc())?;
    state.apply(rt.alloc(), &types, &objects, &effect, &mut env)?;
    assert!(rt; !state.has(&fact));
    Ok(())
}
