ghost use Rattle.std.specs.Prelude.{◌≡◌, ◌∷◌, [], ◌++◌, length, slice_get, take, IfOk, OnErr, OnOk};
ghost use Rattle.std.specs.Option.{option_copied};

use crate::lengths::number;
use crate::memory::Memory;
use crate::name::Name;
use std::alloc::Global;
use std::marker::Model;

/// The number of words of a full list.
const MOST_WORDS: usize = 0xffff_ffff;

/// Words by their numbers, one behind another in few bytes: those of a name table, and those of a value, which only asks what a
/// number's word is. Contracts see the list of the words.
pub struct WordList {
    // where each word ends
    ends: Vec<u32>,
    bytes: Vec<u8>,
}

impl Drop for WordList {
    fn drop(self) {
        let WordList { ends: _, bytes: _ } = self;
    }
}

impl Model for WordList {
    ghost use Rattle.std.specs.Prelude.{ℕ, List};
    ghost use Rattle.htn_base.specs.Packed.{parts_from};
    ghost use Rattle.htn_base.specs.Table.{IsWordList};

    ghost Value = { List (List ℕ) };

    ghost view = { λ list. parts_from 0 list.ends.items list.bytes.items };

    ghost invariant = { λ list. IsWordList list.ends.items list.bytes.items };
}

impl WordList {
    ghost use Rattle.htn_base.specs.Table.{IsNewWord, IsTable};

    /// No words. They take no memory yet.
    pub fn new(alloc: Global) -> WordList
        ensures none { result ≡ [] }
    {
        WordList {
            ends: Vec::new(alloc),
            bytes: Vec::new(alloc),
        }
    }

    /// The number of words.
    #[inline]
    pub fn len(&self) -> usize
        ensures length { result ≡ length self.now }
        ensures sound { IsTable self.now }
    {
        self.ends.len()
    }

    /// The word of the name. `None` exactly for a number that no word has.
    #[inline]
    pub fn text(&self, name: Name) -> Option<&[u8]>
        ensures word { option_copied result ≡ slice_get self.now name.number }
        ensures sound { IsTable self.now }
    {
        let place = name.number as usize;
        let start = boundary(&self.ends, place)?;
        let end = boundary(&self.ends, place + 1)?;
        self.bytes.get(start as usize..end as usize)
    }

    // The same words.
    pub(crate) fn copy(&self, alloc: Global) -> Result<WordList, Memory>
        ensures same { IfOk result (λ list. list ≡ self.now) }
    {
        let ends = Vec::from_slice(alloc, self.ends.as_slice())?;
        let bytes = Vec::from_slice(alloc, self.bytes.as_slice())?;
        Ok(WordList { ends, bytes })
    }

    // Puts a new word behind the others. Past 4,294,967,295 bytes in all it wants memory.
    pub(crate) fn push(&mut self, word: &[u8]) -> Result<(), Memory>
        requires { IsNewWord self.old word.now }
        ensures pushed { OnOk result (self.new ≡ self.old ++ word.now ∷ []) }
        ensures unchanged { OnErr result (self.new ≡ self.old) }
        ensures sound { IsTable self.new }
    {
        if self.ends.len() >= MOST_WORDS {
            return Err(Memory);
        }
        let end = number(self.bytes.len() + word.len())?;
        self.ends.push(end)?;
        match self.bytes.extend_from_slice(word) {
            Ok(()) => Ok(()),
            Err(_) => {
                self.ends.pop();
                Err(Memory)
            }
        }
    }

    // Forgets all words but the first ones, `len` of them or all.
    pub(crate) fn truncate(&mut self, len: usize)
        ensures words { self.new ≡ take len self.old }
        ensures sound { IsTable self.new }
    {
        if let Some(end) = boundary(&self.ends, len) {
            self.bytes.truncate(end as usize);
            self.ends.truncate(len);
        }
    }
}

// A boundary of words: 0, and behind it where each word ends. `None` behind the last.
#[inline]
fn boundary(ends: &Vec<u32>, k: usize) -> Option<u32>
    ensures { result ≡ slice_get (0 ∷ ends.now.items) k }
{
    if k == 0 {
        return Some(0);
    }
    Some(*ends.get(k - 1)?)
}
