ghost use Rattle.std.specs.Prelude.{◌≡◌, ◌<◌, ◌≤◌, [], ◌∷◌, IfOk};
ghost use Rattle.text_forms.specs.Placed.{parts_at};
ghost use Rattle.text_forms.specs.Tokens.{token_count};
ghost use Rattle.gd_reader.specs.Added.{AddsOf};
ghost use Rattle.gd_reader.specs.Answers.{Gives, GivesWith};
ghost use Rattle.gd_reader.specs.Ends.{end_of};
ghost use Rattle.gd_reader.specs.Terms.{Keeps};
ghost use Rattle.gd_reader.specs.TypedLists.{some_names, union_due, kind_due};

use crate::cursor::{Item, item_at, word_due, word_or_end};
use crate::stop::{Failure, Stop};
use crate::term::{RawTerm, name_of, see, used_of};
use crate::typed_lists::{ListKind, are_variables};
use crate::words::{Sort, is_either, sort_of};
use htn_base::{List, Memory, NameTable, is_reserved_in_any_case};
use std::alloc::Global;
use text_forms::sexpr_text::Sexprs;

fn alone(alloc: Global, term: RawTerm) -> Result<List<RawTerm>, Memory>
    ensures { IfOk result (λ l. l ≡ term ∷ []) }
{
    let mut terms = List::new(alloc);
    terms.push(term)?;
    Ok(terms)
}

// The names of a union, one or more, each once.
#[tactic(auto, using(crate::proofs::Keeping::keeps_same, crate::proofs::Keeping::keeps_then, crate::proofs::Steps::some_names_is))]
fn some_names_of(
    alloc: Global,
    s: &Sexprs<'_>,
    i: u32,
    names: &mut NameTable,
) -> Result<List<RawTerm>, Failure>
    ensures keeps { Keeps names.old names.new }
    ensures adds { AddsOf s.now names.old names.new }
    ensures gives { GivesWith names.new result (some_names names.old (parts_at s.now i)) }
{
    let (at, word, mut i) = word_due(s, i)?;
    let first = used_of(names, at, word)?;
    let mut types = alone(alloc, first)?;
    let mut seen = NameTable::new(alloc);
    see(&mut seen, word)?;
    while let Some((at, word, behind)) = word_or_end(s, i)? {
        let ty = used_of(names, at, word)?;
        if !see(&mut seen, word)? {
            types.push(ty)?;
        }
        i = behind;
    }
    Ok(types)
}

// A union, where it may stand, as what stands in its parentheses.
#[tactic(auto, using(crate::proofs::Keeping::keeps_same, crate::proofs::Keeping::keeps_then, crate::proofs::Steps::union_is))]
fn union_due_of(
    alloc: Global,
    s: &Sexprs<'_>,
    at: u32,
    i: u32,
    kind: ListKind,
    names: &mut NameTable,
) -> Result<List<RawTerm>, Failure>
    ensures keeps { Keeps names.old names.new }
    ensures adds { AddsOf s.now names.old names.new }
    ensures gives { GivesWith names.new result (union_due kind names.old at (parts_at s.now i)) }
{
    if !are_variables(kind) {
        return Err(Failure::At(Stop::Departs(8, at)));
    }
    let (at, word, i) = word_due(s, i)?;
    if is_either(word) {
        some_names_of(alloc, s, i, names)
    } else {
        Err(Failure::At(Stop::Departs(8, at)))
    }
}

/// The type at token `i`, and the number of the token behind it.
#[tactic(auto, unfolding(crate::specs::TypedLists::kind_due, crate::specs::TypedLists::type_by), using(crate::proofs::Adding::bare_name, crate::proofs::Keeping::keeps_same))]
pub fn kind_of(
    alloc: Global,
    s: &Sexprs<'_>,
    i: u32,
    kind: ListKind,
    names: &mut NameTable,
) -> Result<(List<RawTerm>, u32), Failure>
    ensures keeps { Keeps names.old names.new }
    ensures adds { AddsOf s.now names.old names.new }
    ensures gives { Gives (λ x. ((x.0, parts_at s.now x.1), names.new)) result
        (kind_due kind names.old (parts_at s.now i)) }
    ensures later { IfOk result (λ x. (i < x.1) × (x.1 ≤ token_count s.now)) }
    ensures closed { IfOk result (λ x. end_of (parts_at s.now x.1) ≡ end_of (parts_at s.now i)) }
{
    match item_at(s, i) {
        Item::End => Err(Failure::At(Stop::Ends)),
        Item::Close(at) => Err(Failure::At(Stop::Departs(8, at))),
        Item::Word(at, word) => match sort_of(word) {
            Sort::Name => {
                let name = name_of(names, word)?;
                let term = RawTerm {
                    name,
                    variable: false,
                    at,
                };
                Ok((alone(alloc, term)?, i + 1))
            }
            Sort::Other if matches!(kind, ListKind::Types) && is_reserved_in_any_case(word) => {
                Err(Failure::At(Stop::Departs(9, at)))
            }
            Sort::Variable | Sort::Other => Err(Failure::At(Stop::Departs(8, at))),
        },
        Item::List(at, inside, behind) => {
            let ty = union_due_of(alloc, s, at, inside, kind, names)?;
            Ok((ty, behind))
        }
    }
}
