ghost use Rattle.std.specs.Prelude.{◌≡◌, ◌≤◌, ◌<◌, ◌↔◌, length, get_or, slice_get, IfOk, IfSome, IsSome};
ghost use Rattle.std.specs.Option.{option_map};
ghost use Rattle.htn_base.specs.Limits.{longest_input};
ghost use Rattle.text_forms.specs.Bytes.{class_of};
ghost use Rattle.text_forms.specs.Closing.{close_at};
ghost use Rattle.text_forms.specs.Faults.{IsFaultless};
ghost use Rattle.text_forms.specs.Tokens.{tokens};
ghost use Rattle.text_forms.specs.sexpr_text.Index.{IsIndexOf, IsEnteredTo};
ghost use Rattle.text_forms.specs.sexpr_text.Places.{IsGoodAt};
ghost use Rattle.text_forms.specs.sexpr_text.Seen.{class_seen, opened, piece_seen};

use crate::sexpr_text::classes::{Class, class_of};
use crate::sexpr_text::ends::{blank_end, word_end};
use crate::sexpr_text::faults::is_fault;
use crate::sexpr_text::tokens::{Kind, Piece};
use htn_base::Memory;
use std::alloc::Global;

/// Where a token begins, and where what begins with it ends: a word at a place, and a list with a token, whose number
/// this is.
#[derive(Clone, Copy)]
pub struct Entry {
    pub at: u32,
    pub end: u32,
}

/// An entry for each token.
pub struct Index {
    pub entries: Vec<Entry>,
}

impl Drop for Index {
    fn drop(self) {
        let Index { entries: _ } = self;
    }
}

/// The index of a text without faults, in one pass, or `None` where the text has a fault. It starts with room for a token
/// in two bytes, which is enough for most texts: room that is never touched costs no memory, and growing copies.
pub fn index_of(alloc: Global, source: &[u8]) -> Result<Option<Index>, Memory>
    requires short { length source.now ≤ longest_input }
    ensures index { IfOk result (λ found. IfSome found (IsIndexOf source.now)) }
    ensures faultless { IfOk result (λ found. IsSome found ↔ IsFaultless source.now) }
{
    let mut index = Index {
        entries: Vec::with_capacity(alloc, source.len() / 2)?,
    };
    let mut open_lists: Vec<u32> = Vec::new(alloc);
    let mut at = 0;
    while at < source.len() {
        let class = class_of(source[at]);
        if is_fault(class, open_lists.len()) {
            return Ok(None);
        }
        at = index.pass_over(&mut open_lists, source, at, class)?;
    }
    if open_lists.is_empty() {
        Ok(Some(index))
    } else {
        Ok(None)
    }
}

impl Index {
    /// The token with a number, or `None` past the last.
    pub fn piece(&self, source: &[u8], i: u32) -> Option<Piece>
        requires short { length source.now ≤ longest_input }
        requires index { IsIndexOf source.now self.now }
        ensures piece { option_map piece_seen result ≡ slice_get (tokens source.now) i }
        ensures order { IfSome result (λ p. p.span.start < p.span.end) }
        ensures within { IfSome result (λ p. p.span.end ≤ length source.now) }
    {
        let entry = self.entry(i)?;
        let at = entry.at as usize;
        // A word ends where its entry says.
        Some(match class_of(source[at]) {
            Class::Opening => Piece::new(Kind::Start, at, at + 1),
            Class::Closing => Piece::new(Kind::Stop, at, at + 1),
            _ => Piece::new(Kind::Word, at, entry.end as usize),
        })
    }

    /// The number of the token that closes the list that the token with a number opens.
    pub fn closing_of(&self, source: &[u8], i: u32) -> Option<u32>
        requires index { IsIndexOf source.now self.now }
        requires faultless { IsFaultless source.now }
        ensures close { result ≡ close_at source.now i }
    {
        let entry = self.entry(i)?;
        match class_of(source[entry.at as usize]) {
            Class::Opening => Some(entry.end),
            _ => None,
        }
    }

    pub fn entry(&self, i: u32) -> Option<Entry>
        ensures entry { result ≡ slice_get self.now.entries.items i }
    {
        self.entries.get(i as usize).copied()
    }

    // Passes over what begins at a place, in front of which these lists are open, and enters it where it is a token.
    fn pass_over(
        &mut self,
        open_lists: &mut Vec<u32>,
        source: &[u8],
        at: usize,
        class: Class,
    ) -> Result<usize, Memory>
        requires short { length source.now ≤ longest_input }
        requires within { at < length source.now }
        requires class { class_seen class ≡ class_of (get_or source.now at 0) }
        requires good { IsGoodAt (length open_lists.old.items) (class_seen class) }
        requires read { IsEnteredTo source.now self.old.entries.items (opened open_lists.old) at }
        ensures later { IfOk result (λ next. at < next) }
        ensures read { IfOk result
            (IsEnteredTo source.now self.new.entries.items (opened open_lists.new)) }
    {
        let end = match class {
            Class::Opening | Class::Closing => at + 1,
            Class::Letter => word_end(source, at + 1),
            Class::Blank | Class::Bad => return Ok(blank_end(source, at)),
        };
        let i = self.entries.len() as u32;
        self.entries.push(Entry {
            at: at as u32,
            end: end as u32,
        })?;
        match class {
            Class::Opening => open_lists.push(i)?,
            Class::Closing => {
                if let Some(j) = open_lists.pop() {
                    self.entries[j as usize].end = i;
                }
            }
            _ => {}
        }
        Ok(end)
    }
}
