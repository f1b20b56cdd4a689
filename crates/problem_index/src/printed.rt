ghost use Rattle.std.specs.Prelude.{◌≡◌, map, IfOk, OnOk};
ghost use Rattle.htn_base.specs.Escapes.{escaped};
ghost use Rattle.htn_base.specs.Table.{with_word};
ghost use Rattle.htn_base.specs.Words.{folded};

use htn_base::{Memory, Name, NameTable, WordList, esc};
use std::alloc::Global;

/// The printed words of these, each at the number of its word.
pub fn printed_words(alloc: Global, words: &WordList) -> Result<NameTable, Memory>
    ensures printed { IfOk result (λ table. table ≡ map escaped words.now) }
{
    let mut table = NameTable::new(alloc);
    for number in 0..words.len() {
        let name = Name {
            number: number as u32,
        };
        if let Some(word) = words.text(name) {
            intern_printed(alloc, &mut table, word)?;
        }
    }
    Ok(table)
}

/// Puts the printed word of this one into the table.
fn intern_printed(alloc: Global, table: &mut NameTable, word: &[u8]) -> Result<(), Memory>
    ensures interned { OnOk result (table.new ≡ with_word table.old (folded (escaped word.now))) }
{
    let printed = esc(alloc, word)?;
    table.intern(printed.as_slice())?;
    Ok(())
}
