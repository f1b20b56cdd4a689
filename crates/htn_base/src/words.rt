ghost use Rattle.std.specs.Prelude.{◌≡◌, ◌↔◌, ◌<◌, ℕ, Some, IfOk};
ghost use Rattle.std.specs.Str.{bytes_eq};
ghost use Rattle.std.specs.List.{list_all, list_any};
ghost use Rattle.htn_base.specs.Escapes as spec;
ghost use Rattle.htn_base.specs.Words as words;
ghost use Rattle.htn_base.specs.Words.{folded};

use crate::memory::Memory;
use crate::text::Text;
use itoa::Buffer;
use std::alloc::Global;

/// Whether the word is plain: a lower-case letter, then lower-case letters, digits, `-` and `_`, and it does not
/// begin with `htn_`.
pub fn is_plain(word: &[u8]) -> bool
    ensures plain { result ≡ spec.is_plain_word word.now }
{
    match word {
        [b'a'..=b'z', ..] => has_plain_bytes(word) && !word.starts_with(b"htn_"),
        _ => false,
    }
}

/// The words that have a meaning of their own in a domain or a problem.
const RESERVED: [&[u8]; 13] = [
    b"-",
    b"->",
    b"=",
    b"<",
    b"and",
    b"or",
    b"not",
    b"imply",
    b"forall",
    b"exists",
    b"when",
    b"increase",
    b"either",
];

/// Whether the word, in any case of its letters, has a meaning of its own in a domain or a problem, so that nothing may
/// be named by it.
pub fn is_reserved_in_any_case(word: &[u8]) -> bool
    ensures reserved { result ≡ words.is_reserved (words.folded word.now) }
{
    is_among_in_any_case(word, &RESERVED)
}

fn is_among_in_any_case(word: &[u8], listed: &[&[u8]]) -> bool
    ensures { result ≡ list_any (λ one. bytes_eq (folded word.now) (folded one.now)) listed.now }
{
    listed.iter().any(|one| word.eq_ignore_ascii_case(one))
}

/// Whether the word, in any case of its letters, may name a domain, a type, an object, a predicate, a task, an action,
/// a method or a subtask.
pub fn is_name(word: &[u8]) -> bool
    ensures name { result ≡ words.is_name (words.folded word.now) }
{
    match word {
        [] | [b'?' | b':', ..] => false,
        _ => !is_reserved_in_any_case(word),
    }
}

/// The printed word of a source name: a plain word itself, and any other as `htn_u_` and each byte in two lower-case
/// hexadecimal digits.
pub fn esc(alloc: Global, word: &[u8]) -> Result<Text, Memory>
    ensures escaped { IfOk result (λ text. text ≡ spec.escaped word.now) }
{
    if is_plain(word) {
        return Text::from_slice(alloc, word);
    }
    let mut text = Text::from_slice(alloc, b"htn_u_")?;
    for byte in word {
        text.push_all(&[hex_digit(*byte / 16), hex_digit(*byte % 16)])?;
    }
    Ok(text)
}

/// The word of slot k. The printed texts count slots from 1.
pub fn slot_name(alloc: Global, k: u32) -> Result<Text, Memory>
    ensures slot { IfOk result (λ text. text ≡ spec.slot_word k) }
{
    let mut digits = Buffer::new();
    let mut text = Text::from_slice(alloc, b"htn_s")?;
    text.push_all(digits.format(k).as_bytes())?;
    Ok(text)
}

/// The number of the slot of this word, from 1 to 2^32 - 1. `None` exactly where it is the word of no such slot.
pub fn slot_number(word: &[u8]) -> Option<u32>
    ensures number { (k : ℕ) → (result ≡ Some k) ↔ spec.IsWordOfSlot k word.now }
{
    let digits = word.strip_prefix(b"htn_s")?;
    let k: u32 = str::from_utf8(digits).ok()?.parse().ok()?;
    if k > 0 && Buffer::new().format(k).as_bytes() == digits {
        Some(k)
    } else {
        None
    }
}

fn has_plain_bytes(word: &[u8]) -> bool
    ensures { result ≡ list_all spec.is_plain_byte word.now }
{
    word.iter().all(is_plain_byte)
}

fn is_plain_byte(byte: &u8) -> bool
    ensures { result ≡ spec.is_plain_byte byte.now }
{
    matches!(byte, b'a'..=b'z' | b'0'..=b'9' | b'-' | b'_')
}

fn hex_digit(digit: u8) -> u8
    requires { digit < 16 }
    ensures { result ≡ spec.hex_digit digit }
{
    if digit < 10 {
        b'0' + digit
    } else {
        b'a' - 10 + digit
    }
}

/// Why printed names never clash: escapes differ where their words do, no escape is a generated word, and each is a
/// name that the texts may have.
pub fn names_stay_apart()
    ensures apart { spec.KeepsNamesApart }
{}
