ghost use Rattle.text_forms.specs.Placed.{parts_at, IsWhole};
ghost use Rattle.plan_text.specs.Departing.{TellsArgs, TellsStep, TellsNext, TellsPlan};

use crate::words::{is_mark, is_step_name};
use gd_reader::{Item, item_at};
use text_forms::sexpr_text::Sexprs;

// The offset of the first of the tokens from `i` up to the end of their list that is no name.
fn args_depart(s: &Sexprs<'_>, mut i: u32) -> Option<u32>
    requires whole { IsWhole (parts_at s.now i) }
    ensures { TellsArgs (parts_at s.now i) result }
{
    loop {
        match item_at(s, i) {
            Item::End => unreachable!(),
            Item::Close(_) => return None,
            Item::Word(_, word) if is_step_name(word) => i += 1,
            Item::Word(at, _) | Item::List(at, _, _) => return Some(at),
        }
    }
}

// The same of a step whose list begins at token `i`, behind its parenthesis.
fn step_departs(s: &Sexprs<'_>, i: u32) -> Option<u32>
    requires whole { IsWhole (parts_at s.now i) }
    ensures { TellsStep (parts_at s.now i) result }
{
    match item_at(s, i) {
        Item::End => unreachable!(),
        Item::Word(_, word) if is_step_name(word) => args_depart(s, i + 1),
        Item::Close(at) | Item::Word(at, _) | Item::List(at, _, _) => Some(at),
    }
}

// The list of the next step, behind a mark perhaps: the numbers of the token that comes first in it and of the one
// behind it. `None` at the end of the text.
fn next_list(s: &Sexprs<'_>, i: u32) -> Result<Option<(u32, u32)>, u32>
    ensures { TellsNext s.now i result }
{
    match item_at(s, i) {
        Item::End => Ok(None),
        Item::List(_, inside, behind) => Ok(Some((inside, behind))),
        Item::Word(mark, word) if is_mark(word) => match item_at(s, i + 1) {
            Item::End => Err(mark),
            Item::List(_, inside, behind) => Ok(Some((inside, behind))),
            Item::Close(at) | Item::Word(at, _) => Err(at),
        },
        Item::Close(at) | Item::Word(at, _) => Err(at),
    }
}

/// The offset of the first token with which the tokens no longer begin a plan, or of the mark behind which they end.
pub(crate) fn departs_at(s: &Sexprs<'_>) -> Option<u32>
    ensures { TellsPlan s.now result }
{
    let mut i = 0;
    loop {
        match next_list(s, i) {
            Ok(None) => return None,
            Ok(Some((inside, behind))) => {
                if let Some(at) = step_departs(s, inside) {
                    return Some(at);
                }
                i = behind;
            }
            Err(at) => return Some(at),
        }
    }
}
