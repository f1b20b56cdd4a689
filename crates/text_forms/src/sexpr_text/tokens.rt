ghost use Rattle.std.specs.Prelude.{◌≡◌, ◌≤◌, ◌<◌, ◌-◌, ◌^◌, length, IfSome};
ghost use Rattle.htn_base.specs.Limits.{longest_input};
ghost use Rattle.text_forms.specs.sexpr_text.Places.{tokens_at, tokens_by, deeper};
ghost use Rattle.text_forms.specs.sexpr_text.Seen.{kind_seen};

use crate::sexpr_text::classes::{Class, class_of};
use crate::sexpr_text::ends::{blank_end, word_end};
use htn_base::Span;

/// A parenthesis that opens a list, one that closes a list, or a word.
#[derive(Clone, Copy, PartialEq)]
pub enum Kind {
    Start,
    Stop,
    Word,
}

/// A token: its kind, its bytes, and where they stand in the source. The word of a parenthesis is the
/// parenthesis. Letters are as the source has them.
#[derive(Clone, Copy)]
pub struct Token<'a> {
    pub kind: Kind,
    pub word: &'a [u8],
    pub span: Span,
}

/// A token without its bytes.
#[derive(Clone, Copy)]
pub struct Piece {
    pub kind: Kind,
    pub span: Span,
}

/// The first token from a place on, where no word is under way and no comment goes on.
pub fn next_piece(source: &[u8], from: u32) -> Option<Piece>
    requires short { length source.now ≤ longest_input }
    ensures tokens { tokens_at source.now from ≡ tokens_by source.now result }
    ensures later { IfSome result (λ p. from ≤ p.span.start) }
    ensures order { IfSome result (λ p. p.span.start < p.span.end) }
    ensures within { IfSome result (λ p. p.span.end ≤ length source.now) }
{
    let mut at = from as usize;
    while at < source.len() {
        match class_of(source[at]) {
            Class::Opening => return Some(Piece::new(Kind::Start, at, at + 1)),
            Class::Closing => return Some(Piece::new(Kind::Stop, at, at + 1)),
            Class::Letter => return Some(Piece::new(Kind::Word, at, word_end(source, at + 1))),
            Class::Blank | Class::Bad => at = blank_end(source, at),
        }
    }
    None
}

impl Piece {
    pub fn new(kind: Kind, start: usize, end: usize) -> Piece
        requires start { start < 2 ^ 32 }
        requires end { end < 2 ^ 32 }
        ensures kind { result.kind ≡ kind }
        ensures start { result.span.start ≡ start }
        ensures end { result.span.end ≡ end }
    {
        let span = Span {
            start: start as u32,
            end: end as u32,
        };
        Piece { kind, span }
    }
}

/// How many lists are open behind a token, where so many are in front of it.
pub fn deeper(kind: Kind, depth: u32) -> u32
    requires few { depth < 2 ^ 32 - 1 }
    ensures deeper { result ≡ deeper (kind_seen kind) depth }
{
    match kind {
        Kind::Start => depth + 1,
        Kind::Stop => depth.saturating_sub(1),
        Kind::Word => depth,
    }
}
