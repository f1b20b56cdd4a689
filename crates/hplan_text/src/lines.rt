ghost use Rattle.std.specs.Prelude.{◌≡◌, ◌+◌, ◌<◌, ◌≤◌, [], ◌++◌, length, map, drop, IfOk, OnOk};
ghost use Rattle.std.specs.List.{cons_option, slice_range};
ghost use Rattle.std.specs.Str.{bytes_eq};
ghost use Rattle.std.specs.Str.Lines.{strip_carriage_return};
ghost use Rattle.htn_base.specs.Limits.{longest_input};
ghost use Rattle.hplan_text.specs.Lines as spec;
ghost use Rattle.hplan_text.specs.Lines.{is_line_end, piece, said, words_from, lines_from, some_line};
ghost use Rattle.hplan_text.specs.Scanning.{as_said, gap, is_only, words_begin, words_end};

use htn_base::Memory;

/// A word of a line: its place in the text, and its bytes.
#[derive(Clone, Copy)]
pub(crate) struct Word<'t> {
    pub(crate) at: u32,
    pub(crate) bytes: &'t [u8],
}

fn is_blank(byte: u8) -> bool
    ensures { result ≡ spec.is_blank byte }
{
    byte == b' ' || byte == b'\t'
}

// The place of the first blank from a place on, or the end.
fn word_end(line: &[u8], from: usize) -> usize
    requires within { from ≤ length line.now }
    ensures gap { result ≡ from + gap spec.is_blank (drop from line.now) }
    ensures later { from ≤ result }
    ensures within { result ≤ length line.now }
{
    for i in from..line.len() {
        if is_blank(line[i]) {
            return i;
        }
    }
    line.len()
}

// The place of the first line's end from a place on, or the end.
fn line_end(text: &[u8], from: usize) -> usize
    requires within { from ≤ length text.now }
    ensures gap { result ≡ from + gap is_line_end (drop from text.now) }
    ensures later { from ≤ result }
    ensures within { result ≤ length text.now }
{
    for i in from..text.len() {
        if text[i] == b'\n' {
            return i;
        }
    }
    text.len()
}

// The line without a carriage return at its end.
fn without_return(line: &[u8]) -> &[u8]
    ensures line { result.now ≡ strip_carriage_return line.now }
    ensures within { length result.now ≤ length line.now }
{
    if line.is_empty() || line[line.len() - 1] != b'\r' {
        return line;
    }
    &line[..line.len() - 1]
}

// Keeps the word between two places of a line, if there is any.
fn keep<'t>(
    line: &'t [u8],
    at: usize,
    from: usize,
    end: usize,
    words: &mut Vec<Word<'t>>,
) -> Result<(), Memory>
    requires short { at + length line.now ≤ longest_input }
    requires order { from ≤ end }
    requires within { end ≤ length line.now }
    ensures kept { OnOk result (map as_said words.new.items
        ≡ map as_said words.old.items ++ cons_option (said (piece (at + from) (slice_range line.now from end))) []) }
{
    if from < end {
        let word = Word {
            at: (at + from) as u32,
            bytes: &line[from..end],
        };
        words.push(word)?;
    }
    Ok(())
}

// The words of a line that stands at a place of the text.
fn words_of<'t>(line: &'t [u8], at: usize, words: &mut Vec<Word<'t>>) -> Result<(), Memory>
    requires short { at + length line.now ≤ longest_input }
    ensures words { OnOk result (map as_said words.new.items ≡ words_from at line.now) }
{
    words.clear();
    let mut i = 0;
    while i < line.len() {
        let end = word_end(line, i);
        keep(line, at, i, end, words)?;
        i = end + 1;
    }
    Ok(())
}

/// Puts the words of the line from a place on in place of what was there. The place of the next line is given.
pub(crate) fn next_line<'t>(
    text: &'t [u8],
    at: usize,
    words: &mut Vec<Word<'t>>,
) -> Result<usize, Memory>
    requires short { length text.now ≤ longest_input }
    requires within { at ≤ length text.now }
    ensures lines { IfOk result (λ behind. lines_from at (drop at text.now)
        ≡ cons_option (some_line (map as_said words.new.items)) (lines_from behind (drop behind text.now))) }
    ensures later { IfOk result (λ behind. at < behind) }
{
    let end = line_end(text, at);
    words_of(without_return(&text[at..end]), at, words)?;
    Ok(end + 1)
}

// Whether the words are one word alone, this one.
fn are_word(words: &[Word<'_>], word: &[u8]) -> bool
    ensures { result ≡ is_only word.now (map as_said words.now) }
{
    match words {
        [only] => only.bytes == word,
        _ => false,
    }
}

/// Whether the words are those of a line behind which a plan begins.
pub(crate) fn begin_plan(words: &[Word<'_>]) -> bool
    ensures { result ≡ words_begin (map as_said words.now) }
{
    are_word(words, b"==>")
}

/// Whether the words are those of a line with which a plan ends.
pub(crate) fn end_plan(words: &[Word<'_>]) -> bool
    ensures { result ≡ words_end (map as_said words.now) }
{
    are_word(words, b"<==") || are_word(words, b"==<")
}
