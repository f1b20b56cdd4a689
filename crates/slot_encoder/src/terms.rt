ghost use Rattle.std.specs.Prelude.{◌≡◌, ◌++◌, map, IfOk, OnOk};
ghost use Rattle.slot_encoder.specs.Made as made;

use htn_base::{List, Memory};
use plan_model::{Atom, Term};
use slot_encoding::slot_declarations::Frame;
use std::alloc::Global;

/// A term of the source behind `front` further variables. A number past 2^32 - 1 is answered as want of memory.
pub(crate) fn moved(frame: &Frame<'_>, front: u32, term: Term) -> Result<Term, Memory>
    ensures { IfOk result (λ t. t ≡ made.term frame.now front term) }
{
    match term {
        Term::Var(k) => Ok(Term::Var(front.checked_add(k).ok_or(Memory)?)),
        Term::Obj(object) => Ok(Term::Obj(object)),
    }
}

/// Puts these terms, moved, at the end.
pub(crate) fn push_moved(
    frame: &Frame<'_>,
    front: u32,
    terms: &[Term],
    into: &mut List<Term>,
) -> Result<(), Memory>
    ensures { OnOk result (into.new ≡ into.old ++ map (made.term frame.now front) terms.now) }
{
    for term in terms {
        into.put(moved(frame, front, *term))?;
    }
    Ok(())
}

pub(crate) fn source_atom(
    alloc: Global,
    frame: &Frame<'_>,
    front: u32,
    atom: &Atom,
) -> Result<Atom, Memory>
    ensures { IfOk result (λ a. a ≡ made.atom frame.now front atom.now) }
{
    let mut args = List::new(alloc);
    push_moved(frame, front, atom.args.as_slice(), &mut args)?;
    Ok(Atom {
        predicate: atom.predicate,
        args,
    })
}
