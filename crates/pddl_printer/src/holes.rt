ghost use Rattle.std.specs.Prelude.{◌≡◌};
ghost use Rattle.pddl_printer.specs.Holes.{holes_among, holes as holes_of};
ghost use Rattle.text_forms.specs.sheets.Sheets.{capped};

use crate::instances::Literal;
use plan_model::Term;

/// How many times the variable of this number stands among terms.
fn holes_in(terms: &[Term], depth: usize) -> u64
    ensures { result ≡ holes_among depth terms.now }
{
    let mut count = 0;
    for term in terms {
        match term {
            Term::Var(k) if *k as usize == depth => count += 1,
            _ => {}
        }
    }
    count
}

/// The same of a literal.
pub(crate) fn holes(literal: &Literal<'_>, depth: usize) -> u64
    ensures { result ≡ capped (holes_of depth literal.now) }
{
    match literal {
        Literal::Held(atom) | Literal::Denied(atom) => holes_in(atom.args.as_slice(), depth),
        Literal::Conditional(condition, added) => {
            let among_added = holes_in(added.args.as_slice(), depth);
            holes_in(condition.args.as_slice(), depth).saturating_add(among_added)
        }
    }
}
