ghost use Rattle.std.specs.Prelude.{◌≤◌, length, map, IfOk};
ghost use Rattle.htn_base.specs.Words.{IsFolded};
ghost use Rattle.plan_text.specs.Coming.{TellsStep, TellsNext, TellsCount};

use crate::tokens::{Token, token_at};
use crate::words::{is_mark, is_step_name};
use htn_base::Memory;
use std::alloc::Global;

/// What comes next in a plan: its end, a step and the place behind it, or what may not come there.
#[derive(Clone, Copy)]
pub(crate) enum Next {
    End,
    Step(usize),
    Other,
}

// The step whose list is entered at a place, with its words.
fn step_from<'t>(text: &'t [u8], inside: usize, words: &mut Vec<&'t [u8]>) -> Result<Next, Memory>
    requires folded { IsFolded text.now }
    requires within { inside ≤ length text.now }
    ensures step { IfOk result
        (TellsStep text.now inside (map (λ word. word.now) words.new.items)) }
{
    words.clear();
    let mut at = inside;
    loop {
        match token_at(text, at) {
            Token::Word(word, behind) if is_step_name(word) => {
                words.push(word)?;
                at = behind;
            }
            Token::Close(behind) if !words.is_empty() => return Ok(Next::Step(behind)),
            Token::End | Token::Open(_) | Token::Close(_) | Token::Word(_, _) | Token::Bad =>
                return Ok(Next::Other),
        }
    }
}

/// What comes next from a place on, with the words of the step, which are those of a text in lower case.
pub(crate) fn next_step<'t>(
    text: &'t [u8],
    from: usize,
    words: &mut Vec<&'t [u8]>,
) -> Result<Next, Memory>
    requires folded { IsFolded text.now }
    requires within { from ≤ length text.now }
    ensures next { IfOk result
        (TellsNext text.now from (map (λ word. word.now) words.new.items)) }
{
    match token_at(text, from) {
        Token::End => Ok(Next::End),
        Token::Open(inside) => step_from(text, inside, words),
        Token::Word(mark, behind) if is_mark(mark) => match token_at(text, behind) {
            Token::Open(inside) => step_from(text, inside, words),
            Token::End | Token::Close(_) | Token::Word(_, _) | Token::Bad => Ok(Next::Other),
        },
        Token::Close(_) | Token::Word(_, _) | Token::Bad => Ok(Next::Other),
    }
}

/// How many steps the text spells, or `None` where it spells no plan.
pub(crate) fn count(alloc: Global, text: &[u8]) -> Result<Option<usize>, Memory>
    requires folded { IsFolded text.now }
    ensures count { IfOk result (TellsCount text.now) }
{
    let mut words = Vec::new(alloc);
    let mut at = 0;
    let mut count = 0;
    loop {
        match next_step(text, at, &mut words)? {
            Next::Step(behind) => {
                at = behind;
                count += 1;
            }
            Next::End => return Ok(Some(count)),
            Next::Other => return Ok(None),
        }
    }
}
