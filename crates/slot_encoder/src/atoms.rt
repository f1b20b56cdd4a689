ghost use Rattle.std.specs.Prelude.{◌≡◌, IfOk};
ghost use Rattle.plan_model.specs.declared.effects.Effect.TheVariants as E;
ghost use Rattle.slot_encoding.specs.slot_declarations.Frames.{IsFrame};
ghost use Rattle.slot_encoder.specs.Pieces.{held_in_first};
ghost use Rattle.slot_encoder.specs.Made as made;

use crate::terms::push_moved;
use htn_base::{List, Memory};
use plan_model::{Atom, Effect, Term};
use slot_encoding::slot_declarations::Frame;
use std::alloc::Global;

/// The atom that the slot is free.
pub(crate) fn is_free(alloc: Global, frame: &Frame<'_>, slot: u32) -> Result<Atom, Memory>
    requires { IsFrame frame.now }
    ensures { IfOk result (λ a. a ≡ made.is_free frame.now slot) }
{
    let mut args = List::new(alloc);
    args.push(Term::Var(slot))?;
    Ok(Atom {
        predicate: frame.basis.numbers.free,
        args,
    })
}

/// The effect that one slot comes before the other.
pub(crate) fn comes_before(
    alloc: Global,
    frame: &Frame<'_>,
    first: u32,
    then: u32,
) -> Result<Effect, Memory>
    requires { IsFrame frame.now }
    ensures { IfOk result (λ e. e ≡ E.Add (made.comes_before frame.now first then)) }
{
    let mut args = List::new(alloc);
    args.push(Term::Var(first))?;
    args.push(Term::Var(then))?;
    Ok(Effect::Add(Atom {
        predicate: frame.basis.numbers.before,
        args,
    }))
}

/// The atom that the slot holds what has these arguments, behind `front` further variables.
pub fn held(
    alloc: Global,
    frame: &Frame<'_>,
    predicate: u32,
    slot: u32,
    front: u32,
    terms: &[Term],
) -> Result<Atom, Memory>
    ensures { IfOk result (λ a. a ≡ made.held_atom frame.now predicate slot front terms.now) }
{
    let mut args = List::new(alloc);
    args.push(Term::Var(slot))?;
    push_moved(frame, front, terms, &mut args)?;
    Ok(Atom { predicate, args })
}

/// The atom that the first slot holds a source action or a check, with its parameters: so many variables in all.
pub(crate) fn held_work(alloc: Global, predicate: u32, depth: u32) -> Result<Atom, Memory>
    ensures { IfOk result (λ a. a ≡ held_in_first predicate depth) }
{
    let mut args = List::new(alloc);
    for k in 0..depth {
        args.push(Term::Var(k))?;
    }
    Ok(Atom { predicate, args })
}
