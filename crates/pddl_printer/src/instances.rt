ghost use Rattle.pddl_printer.specs.InstanceTexts.{inside_with, literal_with};

use crate::pen::Pen;
use crate::terms::word_in_force;
use crate::words::{object_word, predicate_word};
use plan_model::{Atom, Pddl, Scope, Term};

/// What a quantifier that is written out says of its variable.
#[derive(Clone, Copy)]
pub(crate) enum Literal<'a> {
    /// The atom holds.
    Held(&'a Atom),
    /// The atom does not hold.
    Denied(&'a Atom),
    /// Where the first atom holds, the second becomes true.
    Conditional(&'a Atom, &'a Atom),
}

/// The word that stands in place of the variable of this number.
#[derive(Clone, Copy)]
pub(crate) struct Instance<'a> {
    pub(crate) depth: usize,
    pub(crate) word: &'a [u8],
}

/// Draws an instance of an atom without the parentheses around it: the word stands in place of the variable.
fn draw_inside<P: Pen>(p: &Pddl, scope: &Scope<'_>, at: Instance<'_>, atom: &Atom, pen: &mut P)
    ensures { P.draws (λ w. inside_with p.now scope.now at.entry.depth w atom.now) at.entry.word.now pen.old pen.new }
{
    pen.draw(predicate_word(p, atom.predicate));
    let terms = atom.args.as_slice();
    for term in terms {
        match term {
            Term::Var(k) if *k as usize == at.depth => {
                pen.draw(b" ");
                pen.place(at.word);
            }
            Term::Var(k) => {
                pen.draw(b" ?");
                pen.draw(word_in_force(p, scope, *k));
            }
            Term::Obj(object) => {
                pen.draw(b" ");
                pen.draw(object_word(p, *object as usize));
            }
        }
    }
}

/// Draws a literal with the word in place of the variable, behind a space.
pub(crate) fn draw_instance<P: Pen>(
    p: &Pddl,
    scope: &Scope<'_>,
    at: Instance<'_>,
    literal: &Literal<'_>,
    pen: &mut P,
)
    ensures { P.draws (λ w. literal_with p.now scope.now at.entry.depth w literal.now) at.entry.word.now pen.old pen.new }
{
    match literal {
        Literal::Held(atom) => {
            pen.draw(b" (");
            draw_inside(p, scope, at, atom, pen);
            pen.draw(b")");
        }
        Literal::Denied(atom) => {
            pen.draw(b" (not (");
            draw_inside(p, scope, at, atom, pen);
            pen.draw(b"))");
        }
        Literal::Conditional(condition, added) => {
            pen.draw(b" (when (");
            draw_inside(p, scope, at, condition, pen);
            pen.draw(b") (");
            draw_inside(p, scope, at, added, pen);
            pen.draw(b"))");
        }
    }
}
