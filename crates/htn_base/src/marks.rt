ghost use Rattle.std.specs.Prelude.{◌<◌, ◌^◌};

use crate::memory::Memory;
use crate::name::{Name, NameTable};
use std::alloc::Global;

/// The number of marks.
const MARKS: usize = 1 << 14;

/// A sum of some bytes of the word: words that look alike seldom have the same one.
fn mark(word: &[u8]) -> usize
    ensures { result < 2 ^ 14 }
{
    let sum = match word {
        [first, .., a, b, c] => {
            *first as usize * 127 + *a as usize * 961 + *b as usize * 31 + *c as usize
        }
        [.., b, c] => *b as usize * 31 + *c as usize,
        [c] => *c as usize,
        [] => 0,
    };
    (sum + word.len() % 64 * 7) % MARKS
}

/// At each mark the number of a name whose word has it, if one was kept, and else 0. So a word that was seen a short while
/// ago is found without a search of its table. A number may be wrong, so its word is compared.
pub struct Marks {
    numbers: Vec<u32>,
}

impl Drop for Marks {
    fn drop(self) {
        let Marks { numbers: _ } = self;
    }
}

impl Marks {
    /// Marks of no words. They take 64 KiB.
    pub fn new(alloc: Global) -> Result<Marks, Memory> {
        let numbers = vec![in alloc; 0; MARKS]?;
        Ok(Marks { numbers })
    }

    /// Marks of the first words of a table.
    pub fn of(alloc: Global, table: &NameTable) -> Result<Marks, Memory> {
        let mut marks = Marks::new(alloc)?;
        for number in 0..table.len().min(MARKS) as u32 {
            let name = Name { number };
            if let Some(word) = table.text(name) {
                marks.set(word, name);
            }
        }
        Ok(marks)
    }

    /// The name that was last kept at the mark of the word.
    #[inline(always)]
    pub(crate) fn get(&self, word: &[u8]) -> Option<Name> {
        let number = self.numbers.get(mark(word))?;
        Some(Name { number: *number })
    }

    /// Keeps the name at the mark of the word.
    #[inline(always)]
    pub(crate) fn set(&mut self, word: &[u8], name: Name) {
        if let Some(number) = self.numbers.get_mut(mark(word)) {
            *number = name.number;
        }
    }
}
