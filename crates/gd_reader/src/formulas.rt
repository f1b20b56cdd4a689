ghost use Rattle.text_forms.specs.Placed.{parts_at};
ghost use Rattle.gd_reader.specs.Added.{AddsOf};
ghost use Rattle.gd_reader.specs.Answers.{GivesWith};
ghost use Rattle.gd_reader.specs.Formulas.{inside, formulas, one, bound};
ghost use Rattle.gd_reader.specs.Terms.{Keeps};

use crate::cursor::{end_due, list_due, list_or_end, word_or_end};
use crate::raw_params::RawParams;
use crate::stop::{Failure, Stop};
use crate::term::{RawAtom, RawTerm, atom_of, two_terms_of};
use crate::typed_lists::{ListKind, params_of};
use crate::words::{Head, head_of};
use htn_base::{Boxed, List, NameTable};
use std::alloc::Global;
use text_forms::sexpr_text::Sexprs;

/// A formula as it is written.
pub enum RawFormula {
    Holds(RawAtom),
    Equal(RawTerm, RawTerm),
    Not(Boxed<RawFormula>),
    And(List<RawFormula>),
    Or(List<RawFormula>),
    Imply(Boxed<RawFormula>, Boxed<RawFormula>),
    Forall(RawParams, Boxed<RawFormula>),
    Exists(RawParams, Boxed<RawFormula>),
}

impl Drop for RawFormula {
    fn drop(self) {
        match self {
            RawFormula::Holds(_) => {}
            RawFormula::Equal(_, _) => {}
            RawFormula::Not(_) => {}
            RawFormula::And(_) => {}
            RawFormula::Or(_) => {}
            RawFormula::Imply(_, _) => {}
            RawFormula::Forall(_, _) => {}
            RawFormula::Exists(_, _) => {}
        }
    }
}

/// What stands in the parentheses of a formula, from token `i` on.
#[cycle(formula)]
#[tactic(auto, unfolding(crate::specs::Formulas::headed), using(crate::proofs::Keeping::keeps_same, crate::proofs::Keeping::keeps_then, crate::proofs::Steps::inside_is, crate::proofs::Steps::two_is, crate::proofs::Adding::bare_plain))]
pub fn inside_of(
    alloc: Global,
    s: &Sexprs<'_>,
    i: u32,
    names: &mut NameTable,
) -> Result<RawFormula, Failure>
    ensures keeps { Keeps names.old names.new }
    ensures adds { AddsOf s.now names.old names.new }
    ensures gives { GivesWith names.new result (inside names.old (parts_at s.now i)) }
{
    let Some((at, word, i)) = word_or_end(s, i)? else {
        return Ok(RawFormula::And(List::new(alloc)));
    };
    match head_of(word) {
        Head::And => Ok(RawFormula::And(formulas_of(alloc, s, i, names)?)),
        Head::Or => Ok(RawFormula::Or(formulas_of(alloc, s, i, names)?)),
        Head::Not => Ok(RawFormula::Not(one_of(alloc, s, i, names)?)),
        Head::Imply => {
            let (inside, behind) = list_due(s, i)?;
            let first = Boxed::new(alloc, inside_of(alloc, s, inside, names)?)?;
            let second = one_of(alloc, s, behind, names)?;
            Ok(RawFormula::Imply(first, second))
        }
        Head::Equal => {
            let (left, right) = two_terms_of(s, i, names)?;
            Ok(RawFormula::Equal(left, right))
        }
        Head::Plain => {
            let atom = atom_of(alloc, s, at, word, i, names)?;
            Ok(RawFormula::Holds(atom))
        }
        Head::Forall => {
            let (vars, part) = bound_of(alloc, s, i, names)?;
            Ok(RawFormula::Forall(vars, part))
        }
        Head::Exists => {
            let (vars, part) = bound_of(alloc, s, i, names)?;
            Ok(RawFormula::Exists(vars, part))
        }
        Head::Wrong => Err(Failure::At(Stop::Departs(8, at))),
    }
}

// Formulas up to the end of their list.
#[cycle(formula)]
#[tactic(auto, using(crate::proofs::Keeping::keeps_same, crate::proofs::Keeping::keeps_then))]
fn formulas_of(
    alloc: Global,
    s: &Sexprs<'_>,
    mut i: u32,
    names: &mut NameTable,
) -> Result<List<RawFormula>, Failure>
    ensures keeps { Keeps names.old names.new }
    ensures adds { AddsOf s.now names.old names.new }
    ensures gives { GivesWith names.new result (formulas names.old (parts_at s.now i)) }
{
    let mut parts = List::new(alloc);
    while let Some((inside, behind)) = list_or_end(s, i)? {
        let part = inside_of(alloc, s, inside, names)?;
        parts.push(part)?;
        i = behind;
    }
    Ok(parts)
}

// A formula, and the end of its list.
#[cycle(formula)]
#[tactic(auto, using(crate::proofs::Keeping::keeps_same, crate::proofs::Keeping::keeps_then, crate::proofs::Steps::one_is))]
fn one_of(
    alloc: Global,
    s: &Sexprs<'_>,
    i: u32,
    names: &mut NameTable,
) -> Result<Boxed<RawFormula>, Failure>
    ensures keeps { Keeps names.old names.new }
    ensures adds { AddsOf s.now names.old names.new }
    ensures gives { GivesWith names.new result (one names.old (parts_at s.now i)) }
{
    let (inside, behind) = list_due(s, i)?;
    let part = Boxed::new(alloc, inside_of(alloc, s, inside, names)?)?;
    end_due(s, behind)?;
    Ok(part)
}

// A list of variables, a formula, and the end of their list.
#[cycle(formula)]
#[tactic(auto, using(crate::proofs::Keeping::keeps_same, crate::proofs::Keeping::keeps_then, crate::proofs::Steps::bound_is))]
fn bound_of(
    alloc: Global,
    s: &Sexprs<'_>,
    i: u32,
    names: &mut NameTable,
) -> Result<(RawParams, Boxed<RawFormula>), Failure>
    ensures keeps { Keeps names.old names.new }
    ensures adds { AddsOf s.now names.old names.new }
    ensures gives { GivesWith names.new result (bound names.old (parts_at s.now i)) }
{
    let (inside, behind) = list_due(s, i)?;
    let (vars, _) = params_of(alloc, s, inside, ListKind::Parameters, names)?;
    let part = one_of(alloc, s, behind, names)?;
    Ok((vars, part))
}
