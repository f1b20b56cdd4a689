ghost use Rattle.text_forms.specs.Placed.{parts_at};
ghost use Rattle.gd_reader.specs.Added.{AddsOf};
ghost use Rattle.gd_reader.specs.Answers.{GivesWith};
ghost use Rattle.gd_reader.specs.Effects.{effect_inside, effects, one_effect, anded};
ghost use Rattle.gd_reader.specs.Terms.{Keeps};

use crate::cursor::{end_due, list_due, list_or_end, pass, word_or_end};
use crate::formulas::{RawFormula, inside_of};
use crate::raw_params::RawParams;
use crate::stop::{Failure, Stop};
use crate::term::{RawAtom, applied_of, atom_of};
use crate::typed_lists::{ListKind, params_of};
use crate::words::{EffectHead, effect_head_of};
use htn_base::{Boxed, List, NameTable};
use std::alloc::Global;
use text_forms::sexpr_text::Sexprs;

/// An effect as it is written. An increase is the empty effect.
pub enum RawEffect {
    Add(RawAtom),
    Delete(RawAtom),
    And(List<RawEffect>),
    Forall(RawParams, Boxed<RawEffect>),
    When(RawFormula, Boxed<RawEffect>),
}

impl Drop for RawEffect {
    fn drop(self) {
        match self {
            RawEffect::Add(_) => {}
            RawEffect::Delete(_) => {}
            RawEffect::And(_) => {}
            RawEffect::Forall(_, _) => {}
            RawEffect::When(_, _) => {}
        }
    }
}

/// What stands in the parentheses of an effect, from token `i` on.
#[cycle(effect)]
#[tactic(auto, unfolding(crate::specs::Effects::effect_headed), using(crate::proofs::Keeping::keeps_same, crate::proofs::Keeping::keeps_then, crate::proofs::EffectSteps::effect_inside_is, crate::proofs::EffectSteps::guarded_is, crate::proofs::EffectSteps::bound_effect_is, crate::proofs::EffectSteps::deleted_is, crate::proofs::Adding::bare_plain_effect))]
pub fn effect_inside_of(
    alloc: Global,
    s: &Sexprs<'_>,
    i: u32,
    names: &mut NameTable,
) -> Result<RawEffect, Failure>
    ensures keeps { Keeps names.old names.new }
    ensures adds { AddsOf s.now names.old names.new }
    ensures gives { GivesWith names.new result (effect_inside names.old (parts_at s.now i)) }
{
    let Some((at, word, i)) = word_or_end(s, i)? else {
        return Ok(RawEffect::And(List::new(alloc)));
    };
    match effect_head_of(word) {
        EffectHead::And => effects_of(alloc, s, i, names),
        EffectHead::Forall => {
            let (inside, behind) = list_due(s, i)?;
            let (vars, _) = params_of(alloc, s, inside, ListKind::Parameters, names)?;
            let part = one_effect_of(alloc, s, behind, names)?;
            Ok(RawEffect::Forall(vars, part))
        }
        EffectHead::When => {
            let (inside, behind) = list_due(s, i)?;
            let condition = inside_of(alloc, s, inside, names)?;
            let part = one_effect_of(alloc, s, behind, names)?;
            Ok(RawEffect::When(condition, part))
        }
        EffectHead::Not => {
            let (inside, behind) = list_due(s, i)?;
            let atom = applied_of(alloc, s, inside, names)?;
            end_due(s, behind)?;
            Ok(RawEffect::Delete(atom))
        }
        EffectHead::Increase => {
            pass(s, i)?;
            Ok(RawEffect::And(List::new(alloc)))
        }
        EffectHead::Plain => {
            let atom = atom_of(alloc, s, at, word, i, names)?;
            Ok(RawEffect::Add(atom))
        }
        EffectHead::Wrong => Err(Failure::At(Stop::Departs(8, at))),
    }
}

// The conjunction of the effects up to the end of their list.
#[cycle(effect)]
#[tactic(auto, using(crate::proofs::Keeping::keeps_same, crate::proofs::Keeping::keeps_then))]
fn effects_of(
    alloc: Global,
    s: &Sexprs<'_>,
    mut i: u32,
    names: &mut NameTable,
) -> Result<RawEffect, Failure>
    ensures keeps { Keeps names.old names.new }
    ensures adds { AddsOf s.now names.old names.new }
    ensures gives { GivesWith names.new result (anded (effects names.old (parts_at s.now i))) }
{
    let mut parts = List::new(alloc);
    while let Some((inside, behind)) = list_or_end(s, i)? {
        let part = effect_inside_of(alloc, s, inside, names)?;
        parts.push(part)?;
        i = behind;
    }
    Ok(RawEffect::And(parts))
}

// An effect, and the end of its list.
#[cycle(effect)]
#[tactic(auto, using(crate::proofs::Keeping::keeps_same, crate::proofs::Keeping::keeps_then, crate::proofs::EffectSteps::one_effect_is))]
fn one_effect_of(
    alloc: Global,
    s: &Sexprs<'_>,
    i: u32,
    names: &mut NameTable,
) -> Result<Boxed<RawEffect>, Failure>
    ensures keeps { Keeps names.old names.new }
    ensures adds { AddsOf s.now names.old names.new }
    ensures gives { GivesWith names.new result (one_effect names.old (parts_at s.now i)) }
{
    let (inside, behind) = list_due(s, i)?;
    let part = Boxed::new(alloc, effect_inside_of(alloc, s, inside, names)?)?;
    end_due(s, behind)?;
    Ok(part)
}
