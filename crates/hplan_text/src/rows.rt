ghost use Rattle.std.specs.Prelude.{◌≡◌, ◌≤◌, length, map};
ghost use Rattle.std.specs.List.{list_all};
ghost use Rattle.hplan_text.specs.Rows as spec;
ghost use Rattle.hplan_text.specs.Scanning.{as_said, as_line, are_node_words, is_id_word, lead, names_of, TellsRow};

use crate::lines::Word;
use crate::mention::Mention;
use crate::words::{id_of, is_arrow, is_id, is_name, is_root};

/// What a line says, or that it has none of the forms. The ids and the names are those of its words.
#[derive(Clone, Copy)]
pub(crate) enum Row<'a, 't> {
    Bad,
    Root(&'a [Word<'t>]),
    Primitive(Mention, &'a [Word<'t>]),
    Decomposed(Mention, &'a [Word<'t>], Word<'t>, &'a [Word<'t>]),
}

fn are_ids(words: &[Word<'_>]) -> bool
    ensures { result ≡ list_all is_id_word words.now }
{
    words.iter().all(|word| is_id(word.bytes))
}

// The number of names in front of the first word that is none.
fn names_len(words: &[Word<'_>]) -> usize
    ensures names { result ≡ lead words.now }
    ensures within { result ≤ length words.now }
{
    for i in 0..words.len() {
        if !is_name(words[i].bytes) {
            return i;
        }
    }
    words.len()
}

// Whether words are an arrow, a method and ids.
fn are_node(arrow: Word<'_>, method: Word<'_>, ids: &[Word<'_>]) -> bool
    ensures { result ≡ are_node_words arrow.entry method.entry ids.now }
{
    is_arrow(arrow.bytes) && is_name(method.bytes) && are_ids(ids)
}

// What names say behind an id, and the words behind them.
fn task<'a, 't>(own: Mention, names: &'a [Word<'t>], behind: &'a [Word<'t>]) -> Row<'a, 't>
    ensures { TellsRow result (spec.task_row own (names_of names.now) (map as_said behind.now)) }
{
    if names.is_empty() {
        return Row::Bad;
    }
    match behind {
        [] => Row::Primitive(own, names),
        [_] => Row::Bad,
        [arrow, method, ids @ ..] => {
            if are_node(*arrow, *method, ids) {
                Row::Decomposed(own, names, *method, ids)
            } else {
                Row::Bad
            }
        }
    }
}

/// What a line says, by its first word and those behind it.
pub(crate) fn read_row<'a, 't>(first: Word<'t>, more: &'a [Word<'t>]) -> Row<'a, 't>
    ensures { TellsRow result (spec.row (as_line first.entry more.now)) }
{
    if is_root(first.bytes) {
        return if are_ids(more) {
            Row::Root(more)
        } else {
            Row::Bad
        };
    }
    match id_of(first.bytes) {
        Some(id) => {
            let (names, behind) = more.split_at(names_len(more));
            task(Mention { id, at: first.at }, names, behind)
        }
        None => Row::Bad,
    }
}
