ghost use Rattle.std.specs.Prelude.{[], ◌∷◌, ◌++◌, IfOk, OnOk};
ghost use Rattle.htn_base.specs.Words.{folded, IsFolded};
ghost use Rattle.slot_encoding.specs.SourceParts as parts;
ghost use Rattle.slot_encoding.specs.EncodedWords as spec;
ghost use Rattle.slot_encoding.specs.slot_declarations.Frames.{HasSourceWords};
ghost use Rattle.slot_encoding.specs.slot_declarations.Vocabulary.{Gains, generated_words};

use crate::slot_declarations::schema_words::{
    put_actions, put_guards, put_methods, put_numbers, put_tasks,
};
use crate::slot_declarations::words::{own_word, prefixed_word, spell_numbered};
use htn_base::{Memory, Name, NameTable, WordList, number};
use plan_model::Compiled;
use std::alloc::Global;

/// The words that every printed problem has: those of types, of variables, and of the predicates of slots and the top method's
/// action.
const SINGLE_WORDS: &[&[u8]] = &[
    b"object",
    b"htn_slot",
    b"htn_object",
    b"htn_h",
    b"htn_x",
    b"htn_a1",
    b"htn_top",
    b"htn_free",
    b"htn_before",
    b"htn_start",
];

/// The words of the printed problem with so many slots, in a table of their own: first those of the source's names, each with
/// the number that the name has, and behind them the generated ones.
pub fn vocabulary_of(alloc: Global, c: &Compiled, slots: u32) -> Result<NameTable, Memory>
    ensures words { IfOk result (spec.HasEncodedWords c.now slots) }
    ensures source { IfOk result (HasSourceWords c.now.hddl.names) }
{
    let mut names = source_words(alloc, &c.hddl.names)?;
    put_generated(alloc, c, slots, &mut names)?;
    Ok(names)
}

/// The printed words of all names of the source, in their order, and that of any other name.
fn source_words(alloc: Global, source: &WordList) -> Result<NameTable, Memory>
    ensures { IfOk result (HasSourceWords source.now) }
{
    let count = number(source.len())?;
    let mut names = NameTable::new(alloc);
    for k in 0..count {
        let word = own_word(alloc, source, Name { number: k })?;
        names.intern(word.as_slice())?;
    }
    put(b"htn_u_", &mut names)?;
    Ok(names)
}

/// Puts a word into the table. A full table is answered as want of memory.
pub(crate) fn put(word: &[u8], names: &mut NameTable) -> Result<(), Memory>
    ensures { OnOk result (Gains (folded word.now ∷ []) names.old names.new) }
{
    names.intern(word)?;
    Ok(())
}

/// Puts the printed word of a source name behind a generated one into the table.
pub(crate) fn put_prefixed(
    alloc: Global,
    source: &WordList,
    prefix: &[u8],
    name: Name,
    names: &mut NameTable,
) -> Result<(), Memory>
    requires { IsFolded prefix.now }
    ensures { OnOk result
        (Gains ((prefix.now ++ parts.source_word source.now name) ∷ []) names.old names.new) }
{
    let word = prefixed_word(alloc, source, prefix, name)?;
    put(word.as_slice(), names)
}

/// Puts the generated word with each of the numbers from 1 on into the table, so many.
pub(crate) fn put_numbered(
    alloc: Global,
    prefix: &[u8],
    count: u32,
    names: &mut NameTable,
) -> Result<(), Memory>
    requires { IsFolded prefix.now }
    ensures { OnOk result (Gains (spec.numbered prefix.now count) names.old names.new) }
{
    let mut word = Vec::new(alloc);
    for k in 0..count {
        spell_numbered(prefix, 1 + k, &mut word)?;
        put(word.as_slice(), names)?;
    }
    Ok(())
}

/// Puts the generated words into the table.
fn put_generated(
    alloc: Global,
    c: &Compiled,
    slots: u32,
    names: &mut NameTable,
) -> Result<(), Memory>
    ensures { OnOk result (Gains (generated_words c.now slots) names.old names.new) }
{
    let source = &c.hddl.names;
    let words = SINGLE_WORDS;
    for word in words {
        put(word, names)?;
    }
    put_numbered(alloc, b"htn_s", slots, names)?;
    put_tasks(alloc, source, c.hddl.tasks.as_slice(), names)?;
    put_actions(alloc, source, c.hddl.actions.as_slice(), names)?;
    put_methods(alloc, source, c.methods.as_slice(), names)?;
    put_guards(alloc, c, names)?;
    put_numbers(alloc, c, names)
}
