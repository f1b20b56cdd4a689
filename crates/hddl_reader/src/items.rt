ghost use Rattle.htn_base.specs.Words.{folded};
ghost use Rattle.text_forms.specs.Placed.{parts_at};
ghost use Rattle.gd_reader.specs.Added.{AddsOf, AddsWordOf, bare};
ghost use Rattle.gd_reader.specs.Answers.{GivesWith};
ghost use Rattle.gd_reader.specs.Terms.{Keeps};
ghost use Rattle.hddl_reader.specs.Networks.{Headed, all_of, some_of};

use gd_reader::{Failure, Item as Shown, Stop, is_word, item_at, word_due, word_or_end};
use htn_base::{List, NameTable};
use std::alloc::Global;
use text_forms::sexpr_text::Sexprs;

/// What stands in parentheses of its own in a part of a network, known by the word at its front.
pub(crate) trait Item: Drop {
    ghost headed: { Headed Self };

    /// The item whose parenthesis stands at the offset `place`, with its first word, and from token `i` on.
    fn headed_of(
        alloc: Global,
        s: &Sexprs<'_>,
        place: u32,
        at: u32,
        word: &[u8],
        i: u32,
        names: &mut NameTable,
    ) -> Result<Self, Failure>
        ensures keeps { Keeps names.old names.new }
        ensures adds { AddsWordOf (bare (folded word.now)) s.now names.old names.new }
        ensures gives { GivesWith names.new result
            (headed names.old place at (folded word.now) (parts_at s.now i)) };
}

// Items, each in its parentheses, up to the end of their list.
#[tactic(auto, using(gd_reader::proofs::Keeping::keeps_same, gd_reader::proofs::Keeping::keeps_then))]
pub(crate) fn all_of<T: Item>(
    alloc: Global,
    s: &Sexprs<'_>,
    mut i: u32,
    names: &mut NameTable,
) -> Result<List<T>, Failure>
    ensures keeps { Keeps names.old names.new }
    ensures adds { AddsOf s.now names.old names.new }
    ensures gives { GivesWith names.new result (all_of T.headed names.old (parts_at s.now i)) }
{
    let mut items = List::new(alloc);
    loop {
        match item_at(s, i) {
            Shown::End => return Err(Failure::At(Stop::Ends)),
            Shown::Close(_) => return Ok(items),
            Shown::Word(at, _) => return Err(Failure::At(Stop::Departs(8, at))),
            Shown::List(place, inside, behind) => {
                let (at, word, inside) = word_due(s, inside)?;
                let item = T::headed_of(alloc, s, place, at, word, inside, names)?;
                items.push(item)?;
                i = behind;
            }
        }
    }
}

/// The items in the list whose parenthesis stands at the offset `place`, from token `i` up to its end: none,
/// one without parentheses of its own, or `and` and any number.
#[tactic(auto, using(gd_reader::proofs::Keeping::keeps_same, gd_reader::proofs::Keeping::keeps_then, crate::proofs::NetworkSteps::some_of_is))]
pub(crate) fn some_of<T: Item>(
    alloc: Global,
    s: &Sexprs<'_>,
    place: u32,
    i: u32,
    names: &mut NameTable,
) -> Result<List<T>, Failure>
    ensures keeps { Keeps names.old names.new }
    ensures adds { AddsOf s.now names.old names.new }
    ensures gives { GivesWith names.new result
        (some_of T.headed names.old place (parts_at s.now i)) }
{
    match word_or_end(s, i)? {
        None => Ok(List::new(alloc)),
        Some((at, word, behind)) => {
            if is_word(word, b"and") {
                all_of(alloc, s, behind, names)
            } else {
                let item = T::headed_of(alloc, s, place, at, word, behind, names)?;
                let mut items = List::new(alloc);
                items.push(item)?;
                Ok(items)
            }
        }
    }
}
