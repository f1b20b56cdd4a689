ghost use Rattle.std.specs.Prelude.{◌≡◌, ◌≤◌, ◌<◌, ◌+◌, ◌↔◌, length, slice_get, IfOk, IfErr, IfSome, IsSome};
ghost use Rattle.std.specs.Option.{option_map};
ghost use Rattle.htn_base.specs.Limits.{longest_input};
ghost use Rattle.text_forms.specs.Closing.{close_at, OpensList};
ghost use Rattle.text_forms.specs.Faults.{IsFaultless};
ghost use Rattle.text_forms.specs.Tokens.{tokens, token_count};
ghost use Rattle.text_forms.specs.sexpr_text.Positions.{IsPosition, IsPositionOf};
ghost use Rattle.text_forms.specs.sexpr_text.Refused.{IsRefusal};
ghost use Rattle.text_forms.specs.sexpr_text.Seen.{bytes_at, token_seen};

use crate::sexpr_text::faults::first_fault;
use crate::sexpr_text::index::{Index, index_of};
use crate::sexpr_text::marks::{Marks, marks_of};
use crate::sexpr_text::positions::Position;
use crate::sexpr_text::read_error::ReadError;
use crate::sexpr_text::tokens::{Token, next_piece};
use htn_base::{Memory, Span};
use std::alloc::Global;
use std::marker::Model;

/// A text without faults of tokens, which contracts see as its bytes.
pub struct Sexprs<'a> {
    source: &'a [u8],
    kept: Kept,
}

impl Drop for Sexprs<'_> {
    fn drop(self) {
        let Sexprs { source: _, kept: _ } = self;
    }
}

/// What is kept of the tokens: the number of them and where every eighth begins, or an entry for each.
pub enum Kept {
    Marks(Marks),
    Index(Index),
}

impl Drop for Kept {
    fn drop(self) {
        match self {
            Kept::Marks(_) => {}
            Kept::Index(_) => {}
        }
    }
}

impl<'a> Model for Sexprs<'a> {
    ghost use Rattle.std.specs.Prelude.{List, ℕ};
    ghost use Rattle.text_forms.specs.sexpr_text.Index.{IsKeptOf};

    ghost Value = { List ℕ };

    ghost view = { λ s. s.source.now };

    ghost invariant = { λ s. IsKeptOf s.source.now s.kept };
}

/// Cuts a text of at most 16,777,216 bytes into its tokens. `file` is its place among the command's inputs. It keeps 9 bytes
/// for every eighth token: for a text whose tokens are read one after another, or that is long.
/// `Bad` has the least fault by offset, then code: a bad byte (1), a list without an end (2), a `)` while no
/// list is open (3), a `(` while 200 lists are open (4).
pub fn read<'a>(alloc: Global, source: &'a [u8], file: u8) -> Result<Sexprs<'a>, ReadError>
    requires short { length source.now ≤ longest_input }
    ensures text { IfOk result (λ s. s ≡ source.now) }
    ensures faultless { IfOk result (λ _. IsFaultless source.now) }
    ensures refused { IfErr result (IsRefusal source.now file) }
{
    match marks_of(alloc, source)? {
        Some(marks) => Ok(Sexprs {
            source,
            kept: Kept::Marks(marks),
        }),
        None => Err(refusal(alloc, source, file)),
    }
}

/// The same with an index: 8 bytes for each token, and `token` and `close_of` look up what they answer. For a text whose
/// tokens are asked for by their numbers, and that is short enough for an index of up to eight times its length.
pub fn read_with_index<'a>(
    alloc: Global,
    source: &'a [u8],
    file: u8,
) -> Result<Sexprs<'a>, ReadError>
    requires short { length source.now ≤ longest_input }
    ensures text { IfOk result (λ s. s ≡ source.now) }
    ensures faultless { IfOk result (λ _. IsFaultless source.now) }
    ensures refused { IfErr result (IsRefusal source.now file) }
{
    match index_of(alloc, source)? {
        Some(index) => Ok(Sexprs {
            source,
            kept: Kept::Index(index),
        }),
        None => Err(refusal(alloc, source, file)),
    }
}

// Why a text that has a fault isn't read. Only such a text is read again, for its least fault.
fn refusal(alloc: Global, source: &[u8], file: u8) -> ReadError
    requires short { length source.now ≤ longest_input }
    requires faulty { IsFaultless source.now → ⊥ }
    ensures refused { IsRefusal source.now file result }
{
    match first_fault(alloc, source, file) {
        Ok(Some(fault)) => ReadError::Bad(fault),
        Ok(None) => unreachable!(),
        Err(Memory) => ReadError::Memory,
    }
}

impl<'a> Sexprs<'a> {
    /// The number of tokens, at most that of the bytes. The text has no fault of tokens.
    pub fn len(&self) -> u32
        ensures count { result ≡ token_count self.now }
        ensures few { result ≤ length self.now }
        ensures faultless { IsFaultless self.now }
    {
        match &self.kept {
            Kept::Marks(marks) => marks.count,
            Kept::Index(index) => index.entries.len() as u32,
        }
    }

    /// The token with number `i` from 0, or `None` past the last. Without an index it is cut out anew each time, with at
    /// most seven tokens in front of it.
    pub fn token(&self, i: u32) -> Option<Token<'a>>
        ensures token { option_map token_seen result ≡ slice_get (tokens self.now) i }
        ensures word { IfSome result (λ t. t.word.now ≡ bytes_at self.now t.span) }
    {
        let piece = match &self.kept {
            Kept::Marks(marks) => next_piece(self.source, marks.place_of(self.source, i)?.at)?,
            Kept::Index(index) => index.piece(self.source, i)?,
        };
        Some(Token {
            kind: piece.kind,
            word: part(self.source, piece.span),
            span: piece.span,
        })
    }

    /// The number of the token that closes the list that token `i` opens, or `None` where it opens none. Without an index
    /// it is looked for from the list's first token on, eight tokens at a time.
    pub fn close_of(&self, i: u32) -> Option<u32>
        ensures close { result ≡ close_at self.now i }
        ensures opens { IsSome result ↔ OpensList self.now i }
    {
        match &self.kept {
            Kept::Marks(marks) => marks.closing_of(self.source, i),
            Kept::Index(index) => index.closing_of(self.source, i),
        }
    }

    /// The position of token `i`, from which on tokens are read one after another.
    pub fn position(&self, i: u32) -> Position
        ensures position { IsPositionOf self.now i result }
    {
        match &self.kept {
            Kept::Marks(marks) => match marks.place_of(self.source, i) {
                Some(place) => Position {
                    token: i,
                    at: place.at,
                },
                None => Position {
                    token: i,
                    at: self.text_len(),
                },
            },
            Kept::Index(index) => match index.entry(i) {
                Some(entry) => Position {
                    token: i,
                    at: entry.at,
                },
                None => Position {
                    token: i,
                    at: self.text_len(),
                },
            },
        }
    }

    /// The token at a position, and the position of the next one; or `None` past the last.
    #[inline]
    pub fn token_from(&self, p: Position) -> Option<(Token<'a>, Position)>
        requires position { IsPosition self.now p }
        ensures token { option_map (λ x. token_seen x.0) result
            ≡ slice_get (tokens self.now) p.token }
        ensures word { IfSome result (λ x. x.0.word.now ≡ bytes_at self.now x.0.span) }
        ensures next { IfSome result (λ x. IsPositionOf self.now (p.token + 1) x.1) }
    {
        let piece = next_piece(self.source, p.at)?;
        let token = Token {
            kind: piece.kind,
            word: part(self.source, piece.span),
            span: piece.span,
        };
        let next = Position {
            token: p.token + 1,
            at: piece.span.end,
        };
        Some((token, next))
    }

    /// The number of bytes of the source, at most 16,777,216.
    pub fn text_len(&self) -> u32
        ensures bytes { result ≡ length self.now }
        ensures short { result ≤ longest_input }
    {
        self.source.len() as u32
    }
}

// The bytes of a span.
fn part(source: &[u8], span: Span) -> &[u8]
    requires order { span.start ≤ span.end }
    requires within { span.end ≤ length source.now }
    ensures bytes { result.now ≡ bytes_at source.now span }
{
    &source[span.start as usize..span.end as usize]
}
