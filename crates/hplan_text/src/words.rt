ghost use Rattle.std.specs.Prelude.{◌≡◌, ◌≤◌, ◌^◌, true, IfOk, MatchOption};
ghost use Rattle.std.specs.Char.{is_ascii_digit};
ghost use Rattle.std.specs.List.{list_all};
ghost use Rattle.std.specs.Str.Parse.{digits_value};
ghost use Rattle.htn_base.specs.Words.{folded, IsFolded};
ghost use Rattle.hplan_text.specs.Rows as spec;
ghost use Rattle.hplan_text.specs.Scanning.{TellsId};

use htn_base::{Memory, Text};
use std::alloc::Global;

fn are_digits(word: &[u8]) -> bool
    ensures { result ≡ list_all is_ascii_digit word.now }
{
    word.iter().all(u8::is_ascii_digit)
}

// The number that digits write, where it is below 2^64.
fn number_of(digits: &[u8]) -> Option<u64>
    requires { list_all is_ascii_digit digits.now ≡ true }
    ensures { MatchOption result (2 ^ 64 ≤ digits_value 10 digits.now) (λ n. n ≡ digits_value 10 digits.now) }
{
    let mut number: u64 = 0;
    for digit in digits {
        number = number.checked_mul(10)?.checked_add((*digit - b'0') as u64)?;
    }
    Some(number)
}

/// The id that a word is: 1 to 20 digits of a number below 2^64.
pub(crate) fn id_of(word: &[u8]) -> Option<u64>
    ensures { TellsId word.now result }
{
    if word.is_empty() || word.len() > 20 || !are_digits(word) {
        return None;
    }
    number_of(word)
}

/// Whether a word is an id.
pub(crate) fn is_id(word: &[u8]) -> bool
    ensures { result ≡ spec.is_id word.now }
{
    id_of(word).is_some()
}

fn are_word_bytes(word: &[u8]) -> bool
    ensures { result ≡ list_all spec.is_word_byte word.now }
{
    word.iter().all(|byte| 33 <= *byte && *byte <= 126)
}

/// Whether a word is `->`.
pub(crate) fn is_arrow(word: &[u8]) -> bool
    ensures { result ≡ spec.is_arrow word.now }
{
    word == b"->".as_slice()
}

/// Whether a word may be a name, an argument or a method.
pub(crate) fn is_name(word: &[u8]) -> bool
    ensures { result ≡ spec.is_name word.now }
{
    are_word_bytes(word) && !is_arrow(word)
}

/// Whether a word is `root`, in any case of its letters.
pub(crate) fn is_root(word: &[u8]) -> bool
    ensures { result ≡ spec.is_root word.now }
{
    word.eq_ignore_ascii_case(b"root")
}

// Whether the word has no upper-case letter.
fn is_folded(word: &[u8]) -> bool
    ensures { result ≡ true → IsFolded word.now }
{
    !word.iter().any(u8::is_ascii_uppercase)
}

/// The word in lower case.
pub(crate) fn in_lower_case(alloc: Global, word: &[u8]) -> Result<Text, Memory>
    ensures { IfOk result (λ text. text ≡ folded word.now) }
{
    if is_folded(word) {
        return Text::from_slice(alloc, word);
    }
    let mut text = Text::new(alloc);
    text.reserve(word.len())?;
    for byte in word {
        text.push(byte.to_ascii_lowercase())?;
    }
    Ok(text)
}
