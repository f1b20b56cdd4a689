ghost use Rattle.std.specs.Prelude.{◌≡◌};
ghost use Rattle.text_forms.specs.Words.{word_at};
ghost use Rattle.pddl_printer.specs.Batches.{Added};
ghost use Rattle.pddl_printer.specs.Scopes.{words_in_force};
ghost use Rattle.pddl_printer.specs.Texts.{applied_text, atom_text};

use crate::batch::Batch;
use crate::words::{name_word, object_word, predicate_word};
use plan_model::{Atom, Pddl, Scope, Term};
use text_forms::sheets::Sheet;

/// The word of the k-th variable in force.
pub(crate) fn word_in_force<'a>(p: &'a Pddl, scope: &Scope<'_>, k: u32) -> &'a [u8]
    ensures { result.now ≡ word_at (words_in_force p.now scope.now) k }
{
    match scope.find(k as usize) {
        Ok(param) => name_word(p, param.name),
        Err(_) => b"",
    }
}

/// Adds a word with terms to a batch, behind a space, as `(= ?x ?y)`.
pub fn add_applied(
    p: &Pddl,
    scope: &Scope<'_>,
    word: &[u8],
    terms: &[Term],
    batch: &mut Batch,
    sheet: &mut Sheet<'_>,
)
    ensures { Added (applied_text p.now scope.now word.now terms.now) batch.old batch.new sheet.old sheet.new }
{
    batch.add(b" (", sheet);
    batch.add(word, sheet);
    for term in terms {
        match term {
            Term::Var(k) => {
                batch.add(b" ?", sheet);
                batch.add(word_in_force(p, scope, *k), sheet);
            }
            Term::Obj(object) => {
                batch.add(b" ", sheet);
                batch.add(object_word(p, *object as usize), sheet);
            }
        }
    }
    batch.add(b")", sheet);
}

/// Adds a predicate with its terms to a batch, behind a space.
pub(crate) fn add_atom(
    p: &Pddl,
    scope: &Scope<'_>,
    atom: &Atom,
    batch: &mut Batch,
    sheet: &mut Sheet<'_>,
)
    ensures { Added (atom_text p.now scope.now atom.now) batch.old batch.new sheet.old sheet.new }
{
    let predicate = predicate_word(p, atom.predicate);
    add_applied(p, scope, predicate, atom.args.as_slice(), batch, sheet);
}
