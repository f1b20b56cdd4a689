ghost use Rattle.std.specs.Prelude.{◌≡◌, IfOk, OnOk, IfErr};
ghost use Rattle.htn_base.specs.Table.{with_word};
ghost use Rattle.htn_base.specs.Words.{folded};
ghost use Rattle.text_forms.specs.Placed.{parts_at};
ghost use Rattle.text_forms.specs.Words.{is_among};
ghost use Rattle.gd_reader.specs.Added.{AddsOf, AddsWord, AddsWordOf, bare};
ghost use Rattle.gd_reader.specs.Answers.{GivesWith};
ghost use Rattle.gd_reader.specs.Terms.{Keeps, name_in, term, used, terms, two_terms, applied, atom};

use crate::cursor::{end_due, word_due, word_or_end};
use crate::stop::{Failure, Stop};
use crate::words::{Sort, rest, sort_of};
use htn_base::{List, Marks, Name, NameTable};
use std::alloc::Global;
use text_forms::sexpr_text::Sexprs;

/// A variable or a name, and the offset of its word. The name of a variable is without its question mark.
#[derive(Clone, Copy)]
pub struct RawTerm {
    pub name: Name,
    pub variable: bool,
    pub at: u32,
}

/// A name and the terms to which it is applied.
pub struct RawAtom {
    pub head: RawTerm,
    pub args: List<RawTerm>,
}

impl Drop for RawAtom {
    fn drop(self) {
        let RawAtom { head: _, args: _ } = self;
    }
}

/// The name of a word in the table, where it is put if it isn't there.
#[tactic(auto, using(crate::proofs::Keeping::keeps_same, crate::proofs::Keeping::keeps_word, crate::proofs::Keeping::name_found, crate::proofs::Adding::adds_word))]
pub fn name_of(names: &mut NameTable, word: &[u8]) -> Result<Name, Failure>
    ensures name { IfOk result (λ n. n ≡ name_in names.old (folded word.now)) }
    ensures table { OnOk result (names.new ≡ with_word names.old (folded word.now)) }
    ensures memory { IfErr result (λ e. e ≡ Failure.Memory) }
    ensures keeps { Keeps names.old names.new }
    ensures adds { AddsWord (folded word.now) names.old names.new }
{
    match names.intern(word) {
        Ok(name) => Ok(name),
        Err(_) => Err(Failure::Memory),
    }
}

/// Puts a word among those that were seen, and tells whether it was there.
#[tactic(auto, using(crate::proofs::Keeping::among_test))]
pub fn see(seen: &mut NameTable, word: &[u8]) -> Result<bool, Failure>
    ensures known { IfOk result (λ known. known ≡ is_among (folded word.now) seen.old) }
    ensures table { OnOk result (seen.new ≡ with_word seen.old (folded word.now)) }
    ensures memory { IfErr result (λ e. e ≡ Failure.Memory) }
{
    let count = seen.len();
    name_of(seen, word)?;
    Ok(seen.len() == count)
}

/// A variable or a name.
#[tactic(auto, unfolding(crate::specs::Terms::term), using(crate::proofs::Sorts::folded_rest, crate::proofs::Adding::bare_variable, crate::proofs::Adding::bare_name, crate::proofs::Keeping::keeps_same))]
pub fn term_of(names: &mut NameTable, at: u32, word: &[u8]) -> Result<RawTerm, Failure>
    ensures keeps { Keeps names.old names.new }
    ensures adds { AddsWord (bare (folded word.now)) names.old names.new }
    ensures gives { GivesWith names.new result (term names.old at (folded word.now)) }
{
    match sort_of(word) {
        Sort::Variable => {
            let name = name_of(names, rest(word))?;
            Ok(RawTerm {
                name,
                variable: true,
                at,
            })
        }
        Sort::Name => {
            let name = name_of(names, word)?;
            Ok(RawTerm {
                name,
                variable: false,
                at,
            })
        }
        Sort::Other => Err(Failure::At(Stop::Departs(8, at))),
    }
}

/// A name that is used.
#[tactic(auto, unfolding(crate::specs::Terms::used), using(crate::proofs::Adding::bare_name, crate::proofs::Keeping::keeps_same))]
pub fn used_of(names: &mut NameTable, at: u32, word: &[u8]) -> Result<RawTerm, Failure>
    ensures keeps { Keeps names.old names.new }
    ensures adds { AddsWord (bare (folded word.now)) names.old names.new }
    ensures gives { GivesWith names.new result (used names.old at (folded word.now)) }
{
    match sort_of(word) {
        Sort::Name => {
            let name = name_of(names, word)?;
            Ok(RawTerm {
                name,
                variable: false,
                at,
            })
        }
        Sort::Variable | Sort::Other => Err(Failure::At(Stop::Departs(8, at))),
    }
}

/// As `used_of`. A name that the marks know is found without a search.
#[tactic(auto, unfolding(crate::specs::Terms::used), using(crate::proofs::Adding::bare_name, crate::proofs::Adding::adds_word, crate::proofs::Keeping::keeps_same, crate::proofs::Keeping::keeps_word, crate::proofs::Keeping::name_found))]
pub fn marked_used_of(
    names: &mut NameTable,
    at: u32,
    word: &[u8],
    marks: &mut Marks,
) -> Result<RawTerm, Failure>
    ensures keeps { Keeps names.old names.new }
    ensures adds { AddsWord (bare (folded word.now)) names.old names.new }
    ensures gives { GivesWith names.new result (used names.old at (folded word.now)) }
{
    match sort_of(word) {
        Sort::Name => {
            let name = names.intern_marked(word, marks)?;
            Ok(RawTerm {
                name,
                variable: false,
                at,
            })
        }
        Sort::Other | Sort::Variable => Err(Failure::At(Stop::Departs(8, at))),
    }
}

/// Terms from token `i` up to the end of their list.
#[tactic(auto, using(crate::proofs::Keeping::keeps_same, crate::proofs::Keeping::keeps_then))]
pub fn terms_of(
    alloc: Global,
    s: &Sexprs<'_>,
    mut i: u32,
    names: &mut NameTable,
) -> Result<List<RawTerm>, Failure>
    ensures keeps { Keeps names.old names.new }
    ensures adds { AddsOf s.now names.old names.new }
    ensures gives { GivesWith names.new result (terms names.old (parts_at s.now i)) }
{
    let mut terms = List::new(alloc);
    while let Some((at, word, behind)) = word_or_end(s, i)? {
        let term = term_of(names, at, word)?;
        terms.push(term)?;
        i = behind;
    }
    Ok(terms)
}

/// Two terms from token `i` on, and the end of their list.
#[tactic(auto, unfolding(crate::specs::Terms::two_terms), using(crate::proofs::Keeping::keeps_same, crate::proofs::Keeping::keeps_then))]
pub fn two_terms_of(
    s: &Sexprs<'_>,
    i: u32,
    names: &mut NameTable,
) -> Result<(RawTerm, RawTerm), Failure>
    ensures keeps { Keeps names.old names.new }
    ensures adds { AddsOf s.now names.old names.new }
    ensures gives { GivesWith names.new result (two_terms names.old (parts_at s.now i)) }
{
    let (at, word, i) = word_due(s, i)?;
    let first = term_of(names, at, word)?;
    let (at, word, i) = word_due(s, i)?;
    let second = term_of(names, at, word)?;
    end_due(s, i)?;
    Ok((first, second))
}

/// An atom behind its name, which is known as one.
#[tactic(auto, unfolding(crate::specs::Terms::atom), using(crate::proofs::Keeping::keeps_same, crate::proofs::Keeping::keeps_then))]
pub fn atom_of(
    alloc: Global,
    s: &Sexprs<'_>,
    at: u32,
    word: &[u8],
    i: u32,
    names: &mut NameTable,
) -> Result<RawAtom, Failure>
    ensures keeps { Keeps names.old names.new }
    ensures adds { AddsWordOf (folded word.now) s.now names.old names.new }
    ensures gives { GivesWith names.new result
        (atom names.old at (folded word.now) (parts_at s.now i)) }
{
    let name = name_of(names, word)?;
    let args = terms_of(alloc, s, i, names)?;
    let head = RawTerm {
        name,
        variable: false,
        at,
    };
    Ok(RawAtom { head, args })
}

/// An atom from token `i` up to the end of its list.
#[tactic(auto, unfolding(crate::specs::Terms::applied), using(crate::proofs::Keeping::keeps_same, crate::proofs::Keeping::keeps_then))]
pub fn applied_of(
    alloc: Global,
    s: &Sexprs<'_>,
    i: u32,
    names: &mut NameTable,
) -> Result<RawAtom, Failure>
    ensures keeps { Keeps names.old names.new }
    ensures adds { AddsOf s.now names.old names.new }
    ensures gives { GivesWith names.new result (applied names.old (parts_at s.now i)) }
{
    let (at, word, i) = word_due(s, i)?;
    let head = used_of(names, at, word)?;
    let args = terms_of(alloc, s, i, names)?;
    Ok(RawAtom { head, args })
}
