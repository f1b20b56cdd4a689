ghost use Rattle.std.specs.Prelude.{◌≡◌, IfOk};
ghost use Rattle.htn_base.specs.Words.{folded};
ghost use Rattle.text_forms.specs.Placed.{parts_at};
ghost use Rattle.gd_reader.specs.Added.{AddsOf, AddsWord, bare};
ghost use Rattle.gd_reader.specs.Answers.{Gives, GivesWith};
ghost use Rattle.gd_reader.specs.Ends.{end_of};
ghost use Rattle.gd_reader.specs.Terms.{Keeps};
ghost use Rattle.gd_reader.specs.TypedLists.{param_due, listed, are_variables};

use crate::kind::kind_of;
use crate::positions::{WordOrEnd, word_or_end_from};
use crate::raw_params::RawParams;
use crate::raw_types::RawTypes;
use crate::stop::{Failure, Stop};
use crate::term::{name_of, see};
use crate::words::{Sort, is_hyphen, rest, sort_of};
use htn_base::{List, Name, NameTable, is_reserved_in_any_case};
use std::alloc::Global;
use text_forms::sexpr_text::Sexprs;

/// A declared word with its offset, and its types: none where none is written, more than one where they make
/// a union. The name of a variable is without its question mark.
pub struct RawParam {
    pub name: Name,
    pub ty: RawTypes,
    pub at: u32,
}

impl Drop for RawParam {
    fn drop(self) {
        let RawParam {
            name: _,
            ty: _,
            at: _,
        } = self;
    }
}

/// What a typed list declares: parameters, each a new one; variables of a predicate; objects; or types, whose
/// types are their parents.
#[derive(Clone, Copy)]
pub enum ListKind {
    Parameters,
    Predicate,
    Objects,
    Types,
}

/// Whether the words of the list are variables.
pub fn are_variables(kind: ListKind) -> bool
    ensures variables { result ≡ are_variables kind }
{
    match kind {
        ListKind::Parameters | ListKind::Predicate => true,
        ListKind::Objects | ListKind::Types => false,
    }
}

// The word that declares. Of parameters a repeat departs.
#[tactic(auto, unfolding(crate::specs::TypedLists::param_by, crate::specs::TypedLists::variable_by), using(crate::proofs::Adding::bare_variable, crate::proofs::Adding::bare_name, crate::proofs::Keeping::keeps_same, crate::proofs::Keeping::keeps_then, crate::proofs::Sorts::folded_rest))]
fn param_of(
    kind: ListKind,
    names: &mut NameTable,
    seen: &mut NameTable,
    at: u32,
    word: &[u8],
) -> Result<RawParam, Failure>
    ensures keeps { Keeps names.old names.new }
    ensures adds { AddsWord (bare (folded word.now)) names.old names.new }
    ensures gives { GivesWith (names.new, seen.new) result
        (param_due kind (names.old, seen.old) at (folded word.now)) }
{
    match (sort_of(word), are_variables(kind)) {
        (Sort::Variable, true) => {
            let word = rest(word);
            if is_reserved_in_any_case(word) {
                return Err(Failure::At(Stop::Departs(9, at)));
            }
            let known = see(seen, word)?;
            if known && matches!(kind, ListKind::Parameters) {
                return Err(Failure::At(Stop::Departs(18, at)));
            }
            let name = name_of(names, word)?;
            Ok(RawParam {
                name,
                ty: RawTypes::none(),
                at,
            })
        }
        (Sort::Name, false) => {
            let name = name_of(names, word)?;
            see(seen, word)?;
            Ok(RawParam {
                name,
                ty: RawTypes::none(),
                at,
            })
        }
        (Sort::Other, false) if is_reserved_in_any_case(word) => {
            Err(Failure::At(Stop::Departs(9, at)))
        }
        (Sort::Variable | Sort::Other, false) | (Sort::Name | Sort::Other, true) => {
            Err(Failure::At(Stop::Departs(8, at)))
        }
    }
}

/// A typed list from token `i` up to its end, and the number of the token that closes it. Its words are read by positions,
/// and the types by the numbers of their tokens. Words whose type is due are pending; where none is written any more they have none.
pub fn params_of(
    alloc: Global,
    s: &Sexprs<'_>,
    i: u32,
    kind: ListKind,
    names: &mut NameTable,
) -> Result<(RawParams, u32), Failure>
    ensures keeps { Keeps names.old names.new }
    ensures adds { AddsOf s.now names.old names.new }
    ensures gives { Gives (λ x. (x.0, names.new)) result
        (listed kind names.old (parts_at s.now i)) }
    ensures closed { IfOk result (λ x. parts_at s.now x.1 ≡ end_of (parts_at s.now i)) }
{
    let mut seen = NameTable::new(alloc);
    let mut done = RawParams::new(alloc);
    let mut pending = List::new(alloc);
    let mut p = s.position(i);
    while let WordOrEnd::Word(at, word, next) = word_or_end_from(s, p)? {
        if pending.len() > 0 && is_hyphen(word) {
            let (types, behind) = kind_of(alloc, s, next.token, kind, names)?;
            done = done.with_words(&pending, RawTypes::new(alloc, types)?)?;
            pending = List::new(alloc);
            p = s.position(behind);
        } else {
            let param = param_of(kind, names, &mut seen, at, word)?;
            pending.push(param)?;
            p = next;
        }
    }
    Ok((done.with_words(&pending, RawTypes::none())?, p.token))
}
