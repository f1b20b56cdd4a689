ghost use Rattle.std.specs.Prelude.{◌≡◌, ◌++◌, IfOk, IsOkAnd, OnOk};
ghost use Rattle.slot_encoding.specs.slot_declarations.Frames.{IsFrame};
ghost use Rattle.stack_encoder.specs.Made as made;

use htn_base::{List, Memory};
use plan_model::{Atom, Effect, Formula, Param, Term};
use slot_encoding::slot_declarations::{Frame, named, plus, push_params, slot_param};
use std::alloc::Global;

/// The atom that the cell is the tip.
pub(crate) fn is_tip(alloc: Global, frame: &Frame<'_>, cell: Term) -> Result<Atom, Memory>
    requires { IsFrame frame.now }
    ensures { IfOk result (λ a. a ≡ made.tip frame.now cell) }
{
    let mut args = List::new(alloc);
    args.push(cell)?;
    Ok(Atom {
        predicate: frame.basis.numbers.free,
        args,
    })
}

/// The atom that the cell of the next variable is the one above that of this variable.
pub(crate) fn is_up(alloc: Global, frame: &Frame<'_>, below: u32) -> Result<Atom, Memory>
    requires { IsFrame frame.now }
    ensures { IfOk result (λ a. a ≡ made.up frame.now below) }
{
    let above = plus(below, 1)?;
    let mut args = List::new(alloc);
    args.push(Term::Var(below))?;
    args.push(Term::Var(above))?;
    Ok(Atom {
        predicate: frame.basis.numbers.before,
        args,
    })
}

/// The variables where nothing comes in the place of what is taken: the cell below, its own, and then these parameters.
pub(crate) fn falling_params(
    alloc: Global,
    frame: &Frame<'_>,
    params: &[Param],
) -> Result<List<Param>, Memory>
    requires { IsFrame frame.now }
    ensures { IfOk result (λ ps. ps ≡ made.falling_params frame.now params.now) }
{
    let mut into = List::new(alloc);
    into.push(slot_param(named(frame, b"htn_d")))?;
    into.push(slot_param(named(frame, b"htn_h")))?;
    push_params(frame, params, &mut into)?;
    Ok(into)
}

/// Puts at the end that it is held, and that its cell, variable 1, is the tip, which lies above variable 0.
pub(crate) fn push_at_tip(
    alloc: Global,
    frame: &Frame<'_>,
    held: Result<Atom, Memory>,
    into: &mut List<Formula>,
) -> Result<(), Memory>
    requires { IsFrame frame.now }
    ensures { OnOk result (IsOkAnd held (λ held. into.new ≡ into.old ++ made.at_tip frame.now held)) }
{
    into.put(held.map(Formula::Holds))?;
    into.put(is_tip(alloc, frame, Term::Var(1)).map(Formula::Holds))?;
    into.put(is_up(alloc, frame, 0).map(Formula::Holds))
}

/// Puts at the end that it goes, and that the cell below is the tip.
pub(crate) fn push_falling(
    alloc: Global,
    frame: &Frame<'_>,
    held: Result<Atom, Memory>,
    into: &mut List<Effect>,
) -> Result<(), Memory>
    requires { IsFrame frame.now }
    ensures { OnOk result (IsOkAnd held (λ held. into.new ≡ into.old ++ made.falling frame.now held)) }
{
    into.put(held.map(Effect::Delete))?;
    into.put(is_tip(alloc, frame, Term::Var(1)).map(Effect::Delete))?;
    into.put(is_tip(alloc, frame, Term::Var(0)).map(Effect::Add))
}
