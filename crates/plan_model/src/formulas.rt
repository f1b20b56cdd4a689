ghost use Rattle.std.specs.Prelude.{◌≡◌, IfOk};

use crate::terms::{Atom, Param, Term};
use htn_base::{Boxed, List, Memory};
use std::alloc::Global;

/// A condition, as in PDDL 2.1, level 1: an atom, an equality of objects, the connectives and the quantifiers.
pub enum Formula {
    Holds(Atom),
    Equal(Term, Term),
    Not(Boxed<Formula>),
    And(List<Formula>),
    Or(List<Formula>),
    Imply(Boxed<Formula>, Boxed<Formula>),
    Forall(List<Param>, Boxed<Formula>),
    Exists(List<Param>, Boxed<Formula>),
}

impl Drop for Formula {
    fn drop(self) {
        match self {
            Formula::Holds(_) => {}
            Formula::Equal(_, _) => {}
            Formula::Not(_) => {}
            Formula::And(_) => {}
            Formula::Or(_) => {}
            Formula::Imply(_, _) => {}
            Formula::Forall(_, _) => {}
            Formula::Exists(_, _) => {}
        }
    }
}

impl Formula {
    /// An equal formula.
    #[cycle(copy_formula)]
    pub fn copy(&self, alloc: Global) -> Result<Formula, Memory>
        ensures equal { IfOk result (λ copy. copy ≡ self.now) }
    {
        match self {
            Formula::Holds(atom) => atom.copy(alloc).map(Formula::Holds),
            Formula::Equal(left, right) => Ok(Formula::Equal(*left, *right)),
            Formula::Not(part) => copy_boxed(alloc, part).map(Formula::Not),
            Formula::And(parts) => copy_list(alloc, parts).map(Formula::And),
            Formula::Or(parts) => copy_list(alloc, parts).map(Formula::Or),
            Formula::Imply(premise, conclusion) => {
                let premise = copy_boxed(alloc, premise)?;
                Ok(Formula::Imply(premise, copy_boxed(alloc, conclusion)?))
            }
            Formula::Forall(params, body) => {
                let params = params.copy(alloc)?;
                Ok(Formula::Forall(params, copy_boxed(alloc, body)?))
            }
            Formula::Exists(params, body) => {
                let params = params.copy(alloc)?;
                Ok(Formula::Exists(params, copy_boxed(alloc, body)?))
            }
        }
    }
}

#[cycle(copy_formula)]
fn copy_boxed(alloc: Global, formula: &Boxed<Formula>) -> Result<Boxed<Formula>, Memory>
    ensures equal { IfOk result (λ copy. copy ≡ formula.now) }
{
    let copy = formula.get().copy(alloc)?;
    Boxed::new(alloc, copy)
}

#[cycle(copy_formula)]
fn copy_list(alloc: Global, formulas: &List<Formula>) -> Result<List<Formula>, Memory>
    ensures equal { IfOk result (λ copies. copies ≡ formulas.now) }
{
    let parts = formulas.as_slice();
    let mut copies = List::new(alloc);
    for part in parts {
        copies.put(part.copy(alloc))?;
    }
    Ok(copies)
}
