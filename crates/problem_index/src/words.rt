ghost use Rattle.std.specs.Prelude.{◌≡◌, length, IfOk};
ghost use Rattle.std.specs.Option.{option_map};

use htn_base::{Marks, Memory, Name, NameTable};
use std::alloc::Global;
use std::marker::Model;

/// The words of a table, which finds again quickly a word that it found a short while ago. Contracts see the list of the words.
pub struct Words {
    table: NameTable,
    marks: Marks,
}

impl Drop for Words {
    fn drop(self) {
        let Words { table: _, marks: _ } = self;
    }
}

impl Model for Words {
    ghost use Rattle.std.specs.Prelude.{ℕ, List};

    ghost Value = { List (List ℕ) };

    ghost view = { λ words. words.table };
}

impl Words {
    ghost use Rattle.htn_base.specs.Table.{number_of, IsTable};

    /// The words of this table, each at its number.
    pub fn of(alloc: Global, table: NameTable) -> Result<Words, Memory>
        ensures words { IfOk result (λ words. words ≡ table) }
    {
        let marks = Marks::of(alloc, &table)?;
        Ok(Words { table, marks })
    }

    /// The number of words.
    pub fn len(&self) -> usize
        ensures length { result ≡ length self.now }
        ensures sound { IsTable self.now }
    {
        self.table.len()
    }

    /// The name of the word. `None` exactly where it is not there.
    #[inline(always)]
    pub fn find(&self, word: &[u8]) -> Option<Name>
        ensures number { option_map (λ name. name.number) result ≡ number_of self.now word.now }
        ensures sound { IsTable self.now }
    {
        self.table.find_marked(word, &self.marks)
    }
}
