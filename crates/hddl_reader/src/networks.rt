ghost use Rattle.htn_base.specs.Words.{folded};
ghost use Rattle.text_forms.specs.Placed.{parts_at};
ghost use Rattle.gd_reader.specs.Added.{AddsOf, AddsWord, bare};
ghost use Rattle.gd_reader.specs.Answers.{Gives, GivesWith};
ghost use Rattle.gd_reader.specs.Terms.{Keeps};
ghost use Rattle.hddl_reader.specs.Networks.{declared, name_due, then_due};

use crate::items::Item;
use gd_reader::{
    Failure, Item as Shown, RawAtom, RawTerm, Sort, Stop, applied_of, end_due, is_word, item_at,
    list_due, name_of, sort_of, terms_of, two_terms_of, used_of, word_due,
};
use htn_base::{List, NameTable, is_reserved_in_any_case};
use std::alloc::Global;
use text_forms::sexpr_text::Sexprs;

/// A subtask as it is written, with its id if it has one, and the offset of its opening parenthesis.
pub struct RawSub {
    pub id: Option<RawTerm>,
    pub atom: RawAtom,
    pub at: u32,
}

impl Drop for RawSub {
    fn drop(self) {
        let RawSub {
            id: _,
            atom: _,
            at: _,
        } = self;
    }
}

/// An ordering: the subtask of the first id before that of the second. The offset is that of its opening parenthesis.
#[derive(Clone, Copy)]
pub struct RawPair {
    pub first: RawTerm,
    pub then: RawTerm,
    pub at: u32,
}

/// A constraint: the two terms are equal, or they differ.
#[derive(Clone, Copy)]
pub struct RawCon {
    pub equal: bool,
    pub left: RawTerm,
    pub right: RawTerm,
}

/// A task network. Where `ordered`, each subtask stands before the next.
pub struct RawNet {
    pub subs: List<RawSub>,
    pub ordered: bool,
    pub pairs: List<RawPair>,
    pub constraints: List<RawCon>,
}

impl Drop for RawNet {
    fn drop(self) {
        let RawNet {
            subs: _,
            ordered: _,
            pairs: _,
            constraints: _,
        } = self;
    }
}

/// A name that is or may be declared. A reserved word has code 9, another word that is no name this one.
#[tactic(auto, unfolding(crate::specs::Networks::declared), using(gd_reader::proofs::Adding::bare_name, gd_reader::proofs::Keeping::keeps_same))]
pub(crate) fn declared_of(
    names: &mut NameTable,
    code: u16,
    at: u32,
    word: &[u8],
) -> Result<RawTerm, Failure>
    ensures keeps { Keeps names.old names.new }
    ensures adds { AddsWord (bare (folded word.now)) names.old names.new }
    ensures gives { GivesWith names.new result (declared code names.old at (folded word.now)) }
{
    match sort_of(word) {
        Sort::Name => {
            let name = name_of(names, word)?;
            Ok(RawTerm {
                name,
                variable: false,
                at,
            })
        }
        Sort::Other if is_reserved_in_any_case(word) => Err(Failure::At(Stop::Departs(9, at))),
        Sort::Variable | Sort::Other => Err(Failure::At(Stop::Departs(code, at))),
    }
}

// A subtask: behind the name at its front its terms, or the task whose id it is.
impl Item for RawSub {
    ghost use Rattle.hddl_reader.specs.Networks.{sub_headed};

    ghost headed = { sub_headed };

    #[tactic(auto, using(gd_reader::proofs::Keeping::keeps_same, gd_reader::proofs::Keeping::keeps_then), unfolding(crate::specs::Networks::sub_headed, crate::specs::Networks::behind_name))]
    fn headed_of(
        alloc: Global,
        s: &Sexprs<'_>,
        place: u32,
        at: u32,
        word: &[u8],
        i: u32,
        names: &mut NameTable,
    ) -> Result<RawSub, Failure> {
        let head = declared_of(names, 8, at, word)?;
        match item_at(s, i) {
            Shown::End => Err(Failure::At(Stop::Ends)),
            Shown::Close(_) => Ok(RawSub {
                id: None,
                atom: RawAtom {
                    head,
                    args: List::new(alloc),
                },
                at: place,
            }),
            Shown::Word(_, _) => {
                let args = terms_of(alloc, s, i, names)?;
                Ok(RawSub {
                    id: None,
                    atom: RawAtom { head, args },
                    at: place,
                })
            }
            Shown::List(_, inside, behind) => {
                let atom = applied_of(alloc, s, inside, names)?;
                end_due(s, behind)?;
                Ok(RawSub {
                    id: Some(head),
                    atom,
                    at: place,
                })
            }
        }
    }
}

// A name that is used, and the number of the token behind it.
#[tactic(auto, using(gd_reader::proofs::Keeping::keeps_same), unfolding(crate::specs::Networks::name_due))]
fn name_due(s: &Sexprs<'_>, i: u32, names: &mut NameTable) -> Result<(RawTerm, u32), Failure>
    ensures keeps { Keeps names.old names.new }
    ensures adds { AddsOf s.now names.old names.new }
    ensures gives { Gives (λ x. ((x.0, parts_at s.now x.1), names.new)) result
        (name_due names.old (parts_at s.now i)) }
{
    let (at, word, behind) = word_due(s, i)?;
    let name = used_of(names, at, word)?;
    Ok((name, behind))
}

// The second name of an ordering, and the end of its list.
#[tactic(auto, using(gd_reader::proofs::Keeping::keeps_same), unfolding(crate::specs::Networks::then_due))]
fn then_due(
    s: &Sexprs<'_>,
    first: RawTerm,
    place: u32,
    i: u32,
    names: &mut NameTable,
) -> Result<RawPair, Failure>
    ensures keeps { Keeps names.old names.new }
    ensures adds { AddsOf s.now names.old names.new }
    ensures gives { GivesWith names.new result
        (then_due first place names.old (parts_at s.now i)) }
{
    let (then, i) = name_due(s, i, names)?;
    end_due(s, i)?;
    Ok(RawPair {
        first,
        then,
        at: place,
    })
}

impl Item for RawPair {
    ghost use Rattle.hddl_reader.specs.Networks.{pair_headed};

    ghost headed = { pair_headed };

    #[tactic(auto, using(gd_reader::proofs::Keeping::keeps_same, gd_reader::proofs::Keeping::keeps_then), unfolding(crate::specs::Networks::pair_headed, crate::specs::Networks::sign_due))]
    fn headed_of(
        _: Global,
        s: &Sexprs<'_>,
        place: u32,
        at: u32,
        word: &[u8],
        i: u32,
        names: &mut NameTable,
    ) -> Result<RawPair, Failure> {
        if is_word(word, b"<") {
            let (first, i) = name_due(s, i, names)?;
            then_due(s, first, place, i, names)
        } else {
            let first = used_of(names, at, word)?;
            let (at, sign, i) = word_due(s, i)?;
            if is_word(sign, b"<") {
                then_due(s, first, place, i, names)
            } else {
                Err(Failure::At(Stop::Departs(8, at)))
            }
        }
    }
}

impl Item for RawCon {
    ghost use Rattle.hddl_reader.specs.Networks.{con_headed};

    ghost headed = { con_headed };

    #[tactic(auto, using(gd_reader::proofs::Keeping::keeps_same, gd_reader::proofs::Keeping::keeps_then), unfolding(crate::specs::Networks::con_headed, crate::specs::Networks::equation))]
    fn headed_of(
        _: Global,
        s: &Sexprs<'_>,
        _: u32,
        at: u32,
        word: &[u8],
        i: u32,
        names: &mut NameTable,
    ) -> Result<RawCon, Failure> {
        if is_word(word, b"=") {
            let (left, right) = two_terms_of(s, i, names)?;
            Ok(RawCon {
                equal: true,
                left,
                right,
            })
        } else if is_word(word, b"not") {
            let (inside, behind) = list_due(s, i)?;
            let (at, sign, inside) = word_due(s, inside)?;
            if !is_word(sign, b"=") {
                return Err(Failure::At(Stop::Departs(8, at)));
            }
            let (left, right) = two_terms_of(s, inside, names)?;
            end_due(s, behind)?;
            Ok(RawCon {
                equal: false,
                left,
                right,
            })
        } else {
            Err(Failure::At(Stop::Departs(8, at)))
        }
    }
}
