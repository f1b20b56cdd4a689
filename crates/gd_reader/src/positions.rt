ghost use Rattle.std.specs.Prelude.{◌≡◌, ◌<◌, ◌≤◌, IfOk, IfErr, IfSome};
ghost use Rattle.std.specs.Option.{option_map};
ghost use Rattle.htn_base.specs.Words.{folded};
ghost use Rattle.text_forms.specs.Placed.{parts_at};
ghost use Rattle.text_forms.specs.Tokens.{token_count};
ghost use Rattle.text_forms.specs.sexpr_text.Positions.{IsPosition};
ghost use Rattle.gd_reader.specs.Added.{Says};
ghost use Rattle.gd_reader.specs.Answers.{Gives, word_due, word_or_end, list_or_end, end_due};
ghost use Rattle.gd_reader.specs.ShownFrom.{ShowsFrom, GoesOnIn, behind_at, inside_and_behind, word_met, next_of};

use crate::stop::{Failure, Stop};
use text_forms::sexpr_text::{Kind, Position, Sexprs};

/// What stands at a position, with its offset and the position of the next token. Of a list that is the token which comes
/// first in it: its end is not looked for.
#[derive(Clone, Copy)]
pub enum ItemFrom<'a> {
    End,
    Close(u32, Position),
    Word(u32, &'a [u8], Position),
    List(u32, Position),
}

/// A word with its offset and the position behind it; or the end of a list, as the position behind the list.
#[derive(Clone, Copy)]
pub enum WordOrEnd<'a> {
    Word(u32, &'a [u8], Position),
    End(Position),
}

/// What stands at a position. As `item_at`, but nothing is looked up.
#[inline]
pub fn item_from<'a>(s: &Sexprs<'a>, p: Position) -> ItemFrom<'a>
    requires position { IsPosition s.now p }
    ensures shows { ShowsFrom s.now p.token result }
{
    match s.token_from(p) {
        None => ItemFrom::End,
        Some((read, next)) => match read.kind {
            Kind::Stop => ItemFrom::Close(read.span.start, next),
            Kind::Word => ItemFrom::Word(read.span.start, read.word, next),
            Kind::Start => ItemFrom::List(read.span.start, next),
        },
    }
}

/// The word that is due at a position: its offset, its letters, and the position behind it.
#[tactic(auto, unfolding(crate::specs::Answers::word_due))]
pub fn word_due_from<'a>(s: &Sexprs<'a>, p: Position) -> Result<(u32, &'a [u8], Position), Failure>
    requires position { IsPosition s.now p }
    ensures gives { Gives (λ x. (x.0, folded x.1.now, parts_at s.now x.2.token)) result
        (word_due (parts_at s.now p.token)) }
    ensures position { IfOk result (λ x. IsPosition s.now x.2) }
    ensures later { IfOk result (λ x. (p.token < x.2.token) × (x.2.token ≤ token_count s.now)) }
    ensures behind { IfOk result (λ x. behind_at s.now x.2.token ≡ behind_at s.now p.token) }
    ensures said { IfOk result (λ x. Says s.now (folded x.1.now)) }
    ensures memory { IfErr result (λ e. e ≡ Failure.Memory → ⊥) }
{
    match item_from(s, p) {
        ItemFrom::End => Err(Failure::At(Stop::Ends)),
        ItemFrom::Close(at, _) | ItemFrom::List(at, _) => Err(Failure::At(Stop::Departs(8, at))),
        ItemFrom::Word(at, word, next) => Ok((at, word, next)),
    }
}

/// The same, or the end of the list in which the token stands.
#[tactic(auto, unfolding(crate::specs::Answers::word_or_end))]
#[inline]
pub fn word_or_end_from<'a>(s: &Sexprs<'a>, p: Position) -> Result<WordOrEnd<'a>, Failure>
    requires position { IsPosition s.now p }
    ensures gives { Gives (word_met s.now) result (word_or_end (parts_at s.now p.token)) }
    ensures position { IfOk result (λ x. IsPosition s.now (next_of x)) }
    ensures later { IfOk result
        (λ x. (p.token < (next_of x).token) × ((next_of x).token ≤ token_count s.now)) }
    ensures behind { IfOk result (GoesOnIn s.now p.token) }
    ensures said { IfOk result (λ x. IfSome (word_met s.now x) (λ v. Says s.now v.1)) }
    ensures memory { IfErr result (λ e. e ≡ Failure.Memory → ⊥) }
{
    match item_from(s, p) {
        ItemFrom::End => Err(Failure::At(Stop::Ends)),
        ItemFrom::Close(_, behind) => Ok(WordOrEnd::End(behind)),
        ItemFrom::Word(at, word, next) => Ok(WordOrEnd::Word(at, word, next)),
        ItemFrom::List(at, _) => Err(Failure::At(Stop::Departs(8, at))),
    }
}

/// The position of the first token in the list that stands at a position, or `None` at the end of the list in which the
/// token stands.
#[tactic(auto, unfolding(crate::specs::Answers::list_or_end))]
pub fn opened_or_end_from(s: &Sexprs<'_>, p: Position) -> Result<Option<Position>, Failure>
    requires position { IsPosition s.now p }
    ensures gives { Gives (option_map (λ x. inside_and_behind s.now x.token)) result
        (list_or_end (parts_at s.now p.token)) }
    ensures position { IfOk result (λ o. IfSome o (IsPosition s.now)) }
    ensures later { IfOk result
        (λ o. IfSome o (λ x. (p.token < x.token) × (x.token ≤ token_count s.now))) }
    ensures memory { IfErr result (λ e. e ≡ Failure.Memory → ⊥) }
{
    match item_from(s, p) {
        ItemFrom::End => Err(Failure::At(Stop::Ends)),
        ItemFrom::Close(_, _) => Ok(None),
        ItemFrom::Word(at, _, _) => Err(Failure::At(Stop::Departs(8, at))),
        ItemFrom::List(_, inside) => Ok(Some(inside)),
    }
}

/// The position behind the list in which the token at a position stands, whose end is due there.
#[tactic(auto, unfolding(crate::specs::Answers::end_due))]
pub fn end_due_from(s: &Sexprs<'_>, p: Position) -> Result<Position, Failure>
    requires position { IsPosition s.now p }
    ensures gives { Gives (λ _. tt) result (end_due (parts_at s.now p.token)) }
    ensures position { IfOk result (IsPosition s.now) }
    ensures later { IfOk result (λ x. (p.token < x.token) × (x.token ≤ token_count s.now)) }
    ensures behind { IfOk result (λ x. parts_at s.now x.token ≡ behind_at s.now p.token) }
    ensures memory { IfErr result (λ e. e ≡ Failure.Memory → ⊥) }
{
    match item_from(s, p) {
        ItemFrom::End => Err(Failure::At(Stop::Ends)),
        ItemFrom::Close(_, behind) => Ok(behind),
        ItemFrom::Word(at, _, _) | ItemFrom::List(at, _) => {
            Err(Failure::At(Stop::Departs(8, at)))
        }
    }
}
