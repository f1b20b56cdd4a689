ghost use Rattle.std.specs.Prelude.{◌≡◌, ◌++◌, map, IfOk, IsTrue, OnOk, OnErr};
ghost use Rattle.name_binding.specs.Kinds.{members_written};
ghost use Rattle.name_binding.specs.Unions.{joined, union_at, StartsWith, unions_said, params_unions, formula_unions, effect_unions};

use crate::members::Members;
use crate::table::TypeTable;
use gd_reader::{RawEffect, RawFormula, RawParams, RawTerm};
use htn_base::{List, Memory};
use std::alloc::Global;

/// A union as it is written: the offset of its first word, and the numbers of its types, each once, as it first names them.
pub struct Either {
    pub at: u32,
    pub members: Members,
}

impl Drop for Either {
    fn drop(self) {
        let Either { at: _, members: _ } = self;
    }
}

/// Puts the unions of a typed list behind the others. After `Memory` the others stand in front of some of them.
pub fn put_unions(
    alloc: Global,
    table: &TypeTable,
    params: &RawParams,
    into: &mut Vec<Either>,
) -> Result<(), Memory>
    ensures put { OnOk result
        (into.new.items ≡ into.old.items ++ params_unions table.now params.now) }
    ensures in_front { OnErr result (StartsWith into.old.items into.new.items) }
{
    let mut members = Members::none();
    let words = params.as_slice();
    for (i, param) in words.iter().enumerate() {
        let types = param.ty.as_slice();
        let same = params.is_typed_as_before(i);
        members = put_union(alloc, table, same, members, types, into)?;
    }
    Ok(())
}

/// Puts the union that these types make behind the others, where there are two or more different ones, and gives their numbers.
/// Where they are the types of the word before, their numbers are known.
fn put_union(
    alloc: Global,
    table: &TypeTable,
    same: bool,
    known: Members,
    types: &[RawTerm],
    into: &mut Vec<Either>,
) -> Result<Members, Memory>
    requires known { IsTrue same → known ≡ members_written table.now types.now }
    ensures members { IfOk result (λ members. members ≡ members_written table.now types.now) }
    ensures put { OnOk result (into.new.items ≡ into.old.items ++ unions_said table.now types.now) }
    ensures unchanged { OnErr result (into.new.items ≡ into.old.items) }
{
    let members = members_by(alloc, table, same, known, types)?;
    match types {
        [] => {}
        [first, ..] => put_members(first.at, &members, into)?,
    }
    Ok(members)
}

/// The numbers of these types, each once. Where they are the types of the word before, they are known.
fn members_by(
    alloc: Global,
    table: &TypeTable,
    same: bool,
    known: Members,
    types: &[RawTerm],
) -> Result<Members, Memory>
    requires known { IsTrue same → known ≡ members_written table.now types.now }
    ensures members { IfOk result (λ members. members ≡ members_written table.now types.now) }
{
    if same {
        return Ok(known);
    }
    drop(known);
    let members = table.members(alloc, types)?;
    Members::new(alloc, members)
}

fn put_members(at: u32, members: &Members, into: &mut Vec<Either>) -> Result<(), Memory>
    ensures put { OnOk result
        (into.new.items ≡ into.old.items ++ union_at at members.now) }
    ensures unchanged { OnErr result (into.new.items ≡ into.old.items) }
{
    match members.as_slice() {
        [] | [_] => Ok(()),
        _ => {
            let members = members.share()?;
            into.push(Either { at, members })?;
            Ok(())
        }
    }
}

/// Puts the unions of a formula's quantifiers behind the others. After `Memory` the others stand in front of some of them.
#[cycle(formula)]
pub fn put_unions_of_formula(
    alloc: Global,
    table: &TypeTable,
    formula: &RawFormula,
    into: &mut Vec<Either>,
) -> Result<(), Memory>
    ensures put { OnOk result
        (into.new.items ≡ into.old.items ++ formula_unions table.now formula.now) }
    ensures in_front { OnErr result (StartsWith into.old.items into.new.items) }
{
    match formula {
        RawFormula::Holds(_) | RawFormula::Equal(_, _) => Ok(()),
        RawFormula::Not(part) => put_unions_of_formula(alloc, table, part.get(), into),
        RawFormula::And(parts) => put_unions_of_formulas(alloc, table, parts, into),
        RawFormula::Or(parts) => put_unions_of_formulas(alloc, table, parts, into),
        RawFormula::Imply(premise, conclusion) => {
            put_unions_of_formula(alloc, table, premise.get(), into)?;
            put_unions_of_formula(alloc, table, conclusion.get(), into)
        }
        RawFormula::Forall(params, body) => {
            put_unions(alloc, table, params, into)?;
            put_unions_of_formula(alloc, table, body.get(), into)
        }
        RawFormula::Exists(params, body) => {
            put_unions(alloc, table, params, into)?;
            put_unions_of_formula(alloc, table, body.get(), into)
        }
    }
}

#[cycle(formula)]
fn put_unions_of_formulas(
    alloc: Global,
    table: &TypeTable,
    formulas: &List<RawFormula>,
    into: &mut Vec<Either>,
) -> Result<(), Memory>
    ensures put { OnOk result
        (into.new.items ≡ into.old.items ++ joined (map (formula_unions table.now) formulas.now)) }
    ensures in_front { OnErr result (StartsWith into.old.items into.new.items) }
{
    for part in formulas.as_slice() {
        put_unions_of_formula(alloc, table, part, into)?;
    }
    Ok(())
}

/// Puts the unions of an effect's quantifiers and conditions behind the others. After `Memory` the others stand in front
/// of some of them.
#[cycle(effect)]
pub fn put_unions_of_effect(
    alloc: Global,
    table: &TypeTable,
    effect: &RawEffect,
    into: &mut Vec<Either>,
) -> Result<(), Memory>
    ensures put { OnOk result
        (into.new.items ≡ into.old.items ++ effect_unions table.now effect.now) }
    ensures in_front { OnErr result (StartsWith into.old.items into.new.items) }
{
    match effect {
        RawEffect::Add(_) | RawEffect::Delete(_) => Ok(()),
        RawEffect::And(parts) => put_unions_of_effects(alloc, table, parts, into),
        RawEffect::Forall(params, body) => {
            put_unions(alloc, table, params, into)?;
            put_unions_of_effect(alloc, table, body.get(), into)
        }
        RawEffect::When(condition, body) => {
            put_unions_of_formula(alloc, table, condition, into)?;
            put_unions_of_effect(alloc, table, body.get(), into)
        }
    }
}

#[cycle(effect)]
fn put_unions_of_effects(
    alloc: Global,
    table: &TypeTable,
    effects: &List<RawEffect>,
    into: &mut Vec<Either>,
) -> Result<(), Memory>
    ensures put { OnOk result
        (into.new.items ≡ into.old.items ++ joined (map (effect_unions table.now) effects.now)) }
    ensures in_front { OnErr result (StartsWith into.old.items into.new.items) }
{
    for part in effects.as_slice() {
        put_unions_of_effect(alloc, table, part, into)?;
    }
    Ok(())
}
