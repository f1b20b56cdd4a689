ghost use Rattle.std.specs.Prelude.{◌≡◌, map, IfOk};
ghost use Rattle.made_transport.specs.Made as spec;

use hplan_text::{HLine, HNode};
use htn_base::{List, Memory, Text};
use itoa::Buffer;
use std::alloc::Global;

/// The name of the package that is delivered behind j others.
pub(crate) fn package(alloc: Global, j: u32) -> Result<Text, Memory>
    ensures { IfOk result (λ text. text ≡ spec.package_word j) }
{
    let mut digits = Buffer::new();
    let mut text = Text::from_slice(alloc, b"p")?;
    text.push_all(digits.format(j as u64 + 1).as_bytes())?;
    Ok(text)
}

/// The line of a task.
pub(crate) fn task(alloc: Global, id: u64, name: &[u8], args: &[&[u8]]) -> Result<HLine, Memory>
    ensures { IfOk result (λ line. line ≡ spec.task id name.now (map (λ arg. arg.now) args.now)) }
{
    let args = words(alloc, args)?;
    Ok(HLine {
        id,
        name: Text::from_slice(alloc, name)?,
        args,
    })
}

// Texts of these words.
fn words(alloc: Global, words: &[&[u8]]) -> Result<List<Text>, Memory>
    ensures { IfOk result (λ texts. texts ≡ map (λ word. word.now) words.now) }
{
    let mut texts = List::with_room(alloc, words.len())?;
    for word in words {
        texts.put(Text::from_slice(alloc, word))?;
    }
    Ok(texts)
}

/// The line of a task that a method decomposes.
pub(crate) fn node(alloc: Global, line: HLine, method: &[u8], ids: &[u64]) -> Result<HNode, Memory>
    ensures { IfOk result (λ node. node ≡ record { line = line; method = method.now; ids = ids.now }) }
{
    Ok(HNode {
        line,
        method: Text::from_slice(alloc, method)?,
        ids: list_of(alloc, ids)?,
    })
}

// A list of these ids.
fn list_of(alloc: Global, ids: &[u64]) -> Result<List<u64>, Memory>
    ensures { IfOk result (λ list. list ≡ ids.now) }
{
    let mut list = List::with_room(alloc, ids.len())?;
    for id in ids {
        list.push(*id)?;
    }
    Ok(list)
}
