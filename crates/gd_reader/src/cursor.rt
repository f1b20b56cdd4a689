ghost use Rattle.std.specs.Prelude.{◌≡◌, ◌<◌, ◌≤◌, IfOk, IfErr, IfSome};
ghost use Rattle.std.specs.Option.{option_map};
ghost use Rattle.htn_base.specs.Words.{folded};
ghost use Rattle.text_forms.specs.Placed.{parts_at};
ghost use Rattle.text_forms.specs.Tokens.{token_count};
ghost use Rattle.gd_reader.specs.Added.{Says};
ghost use Rattle.gd_reader.specs.Answers.{Gives, word_due, word_or_end, list_due, list_or_end, end_due, passed};
ghost use Rattle.gd_reader.specs.Shown.{Shows, IsListTo, AreLater, parts_at_both};

use crate::stop::{Failure, Stop};
use text_forms::sexpr_text::{Kind, Sexprs};

/// What stands at a token, with its offset: a word, or a list with the numbers of the token that comes first
/// in it and of the one behind it.
#[derive(Clone, Copy)]
pub enum Item<'a> {
    End,
    Close(u32),
    Word(u32, &'a [u8]),
    List(u32, u32, u32),
}

/// What stands at the token with number `i`.
#[tactic(auto, using(crate::proofs::Items::shows_past))]
pub fn item_at<'a>(s: &Sexprs<'a>, i: u32) -> Item<'a>
    ensures shows { Shows s.now i result }
{
    if i >= s.len() {
        return Item::End;
    }
    match s.token(i) {
        None => Item::End,
        Some(read) => match read.kind {
            Kind::Stop => Item::Close(read.span.start),
            Kind::Word => Item::Word(read.span.start, read.word),
            Kind::Start => match s.close_of(i) {
                Some(closing) => Item::List(read.span.start, i + 1, closing + 1),
                None => Item::End,
            },
        },
    }
}

/// The word that is due at token `i`: its offset, its letters, and the number of the token behind it.
#[tactic(auto, unfolding(crate::specs::Answers::word_due))]
pub fn word_due<'a>(s: &Sexprs<'a>, i: u32) -> Result<(u32, &'a [u8], u32), Failure>
    ensures gives { Gives (λ x. (x.0, folded x.1.now, parts_at s.now x.2)) result
        (word_due (parts_at s.now i)) }
    ensures later { IfOk result (λ x. (i < x.2) × (x.2 ≤ token_count s.now)) }
    ensures said { IfOk result (λ x. Says s.now (folded x.1.now)) }
    ensures memory { IfErr result (λ e. e ≡ Failure.Memory → ⊥) }
{
    match item_at(s, i) {
        Item::End => Err(Failure::At(Stop::Ends)),
        Item::Close(at) | Item::List(at, _, _) => Err(Failure::At(Stop::Departs(8, at))),
        Item::Word(at, word) => Ok((at, word, i + 1)),
    }
}

/// The same, or `None` at the end of the list in which the token stands.
#[tactic(auto, unfolding(crate::specs::Answers::word_or_end))]
pub fn word_or_end<'a>(s: &Sexprs<'a>, i: u32) -> Result<Option<(u32, &'a [u8], u32)>, Failure>
    ensures gives { Gives (option_map (λ x. (x.0, folded x.1.now, parts_at s.now x.2))) result
        (word_or_end (parts_at s.now i)) }
    ensures later { IfOk result (λ o. IfSome o (λ x. (i < x.2) × (x.2 ≤ token_count s.now))) }
    ensures said { IfOk result (λ o. IfSome o (λ x. Says s.now (folded x.1.now))) }
    ensures memory { IfErr result (λ e. e ≡ Failure.Memory → ⊥) }
{
    match item_at(s, i) {
        Item::End => Err(Failure::At(Stop::Ends)),
        Item::Close(_) => Ok(None),
        Item::Word(at, word) => Ok(Some((at, word, i + 1))),
        Item::List(at, _, _) => Err(Failure::At(Stop::Departs(8, at))),
    }
}

/// The list that is due at token `i`: the numbers of the token that comes first in it and of the one behind it.
#[tactic(auto, unfolding(crate::specs::Answers::list_due))]
pub fn list_due(s: &Sexprs<'_>, i: u32) -> Result<(u32, u32), Failure>
    ensures gives { Gives (parts_at_both s.now) result (list_due (parts_at s.now i)) }
    ensures later { IfOk result (AreLater s.now i) }
    ensures closed { IfOk result (λ x. IsListTo s.now i x.0 x.1) }
    ensures goes_on { IfErr result
        (λ e. i < token_count s.now → e ≡ Failure.At Stop.Ends → ⊥) }
    ensures memory { IfErr result (λ e. e ≡ Failure.Memory → ⊥) }
{
    match item_at(s, i) {
        Item::End => Err(Failure::At(Stop::Ends)),
        Item::Close(at) | Item::Word(at, _) => Err(Failure::At(Stop::Departs(8, at))),
        Item::List(_, inside, behind) => Ok((inside, behind)),
    }
}

/// The same, or `None` at the end of the list in which the token stands.
#[tactic(auto, unfolding(crate::specs::Answers::list_or_end))]
pub fn list_or_end(s: &Sexprs<'_>, i: u32) -> Result<Option<(u32, u32)>, Failure>
    ensures gives { Gives (option_map (parts_at_both s.now)) result
        (list_or_end (parts_at s.now i)) }
    ensures later { IfOk result (λ o. IfSome o (AreLater s.now i)) }
    ensures memory { IfErr result (λ e. e ≡ Failure.Memory → ⊥) }
{
    match item_at(s, i) {
        Item::End => Err(Failure::At(Stop::Ends)),
        Item::Close(_) => Ok(None),
        Item::Word(at, _) => Err(Failure::At(Stop::Departs(8, at))),
        Item::List(_, inside, behind) => Ok(Some((inside, behind))),
    }
}

/// The end of the list in which token `i` stands is due.
#[tactic(auto, unfolding(crate::specs::Answers::end_due))]
pub fn end_due(s: &Sexprs<'_>, i: u32) -> Result<(), Failure>
    ensures gives { Gives (λ _. tt) result (end_due (parts_at s.now i)) }
    ensures memory { IfErr result (λ e. e ≡ Failure.Memory → ⊥) }
{
    match item_at(s, i) {
        Item::End => Err(Failure::At(Stop::Ends)),
        Item::Close(_) => Ok(()),
        Item::Word(at, _) | Item::List(at, _, _) => Err(Failure::At(Stop::Departs(8, at))),
    }
}

/// Passes over words and lists from token `i` up to the end of their list.
#[tactic(auto, unfolding(crate::specs::Answers::passed), using(crate::proofs::Passing::passed_list, crate::proofs::Passing::passed_word))]
pub fn pass(s: &Sexprs<'_>, mut i: u32) -> Result<(), Failure>
    ensures gives { Gives (λ _. tt) result (passed (parts_at s.now i)) }
    ensures memory { IfErr result (λ e. e ≡ Failure.Memory → ⊥) }
{
    loop {
        match item_at(s, i) {
            Item::End => return Err(Failure::At(Stop::Ends)),
            Item::Close(_) => return Ok(()),
            Item::Word(_, _) => i += 1,
            Item::List(_, _, behind) => i = behind,
        }
    }
}
