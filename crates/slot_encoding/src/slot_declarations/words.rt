ghost use Rattle.std.specs.Prelude.{◌≡◌, ◌++◌, decimal, IfOk, OnOk};
ghost use Rattle.slot_encoding.specs.SourceParts as spec;
ghost use Rattle.slot_encoding.specs.slot_declarations.Frames.{IsFrame};
ghost use Rattle.slot_encoding.specs.slot_declarations.Made as made;

use crate::slot_declarations::frame::Frame;
use htn_base::{Memory, Name, NameTable, Text, WordList, esc};
use itoa::Buffer;
use std::alloc::Global;

/// The name of a printed word; a number past the end where the table lacks it.
pub fn named(frame: &Frame<'_>, word: &[u8]) -> Name
    ensures { result ≡ spec.name frame.now.printed.now word.now }
{
    name_of(frame.printed, word)
}

pub(crate) fn name_of(printed: &NameTable, word: &[u8]) -> Name
    ensures { result ≡ spec.name printed.now word.now }
{
    match printed.find(word) {
        Some(name) => name,
        None => Name {
            number: printed.len() as u32,
        },
    }
}

/// The printed word of a source name.
pub(crate) fn own_word(alloc: Global, source: &WordList, name: Name) -> Result<Text, Memory>
    ensures { IfOk result (λ text. text ≡ spec.source_word source.now name) }
{
    match source.text(name) {
        Some(word) => esc(alloc, word),
        None => esc(alloc, b""),
    }
}

/// The name of a source name's printed word. The printed words begin with those of the source, so that a name of the source
/// keeps its number; any other stands for the empty word.
pub fn renamed(frame: &Frame<'_>, name: Name) -> Name
    requires { IsFrame frame.now }
    ensures { result ≡ made.renamed frame.now name }
{
    if (name.number as usize) < frame.compiled.hddl.names.len() {
        name
    } else {
        named(frame, b"htn_u_")
    }
}

/// The name of a source name's printed word behind a generated one.
pub fn prefixed(alloc: Global, frame: &Frame<'_>, prefix: &[u8], name: Name) -> Result<Name, Memory>
    ensures { IfOk result (λ n. n ≡ made.prefixed frame.now prefix.now name) }
{
    let word = prefixed_word(alloc, &frame.compiled.hddl.names, prefix, name)?;
    Ok(named(frame, word.as_slice()))
}

pub(crate) fn prefixed_word(
    alloc: Global,
    source: &WordList,
    prefix: &[u8],
    name: Name,
) -> Result<Text, Memory>
    ensures { IfOk result (λ text. text ≡ prefix.now ++ spec.source_word source.now name) }
{
    let own = own_word(alloc, source, name)?;
    let mut text = Text::from_slice(alloc, prefix)?;
    text.push_all(own.as_slice())?;
    Ok(text)
}

/// The name of a generated word with a number behind it.
pub fn numbered(alloc: Global, frame: &Frame<'_>, prefix: &[u8], k: u32) -> Result<Name, Memory>
    ensures { IfOk result (λ n. n ≡ spec.name frame.now.printed.now (prefix.now ++ decimal k)) }
{
    let word = numbered_word(alloc, prefix, k)?;
    Ok(named(frame, word.as_slice()))
}

/// Makes this the generated word with a number behind it.
pub(crate) fn spell_numbered(prefix: &[u8], k: u32, word: &mut Vec<u8>) -> Result<(), Memory>
    ensures { OnOk result (word.new.items ≡ prefix.now ++ decimal k) }
{
    let mut digits = Buffer::new();
    word.clear();
    word.extend_from_slice(prefix)?;
    word.extend_from_slice(digits.format(k).as_bytes())?;
    Ok(())
}

pub(crate) fn numbered_word(alloc: Global, prefix: &[u8], k: u32) -> Result<Text, Memory>
    ensures { IfOk result (λ text. text ≡ prefix.now ++ decimal k) }
{
    let mut digits = Buffer::new();
    let mut text = Text::new(alloc);
    text.push_all(prefix)?;
    text.push_all(digits.format(k).as_bytes())?;
    Ok(text)
}
