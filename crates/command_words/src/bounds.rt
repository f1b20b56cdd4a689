ghost use Rattle.std.specs.Prelude.{◌≡◌, ◌↔◌, ◌<◌, ◌≤◌, ◌^◌, IsTrue, length};
ghost use Rattle.std.specs.List.{list_all};
ghost use Rattle.std.specs.Char.{is_ascii_digit};
ghost use Rattle.std.specs.Str.Parse.{digits_value};
ghost use Rattle.command_words.specs.Bounds.{IsCount, IsNumeral, ComesTo};

use htn_base::limits::MOST_SLOTS;

/// The greatest number of digits of a numeral.
const LONGEST_NUMERAL: usize = 39;

/// And of a count.
const LONGEST_COUNT: usize = 9;

/// What a number of slots comes to.
#[derive(Clone, Copy)]
pub enum Bound {
    /// So many slots, from 1 to 65,536.
    Slots(u32),
    /// More slots than are printed, and fewer than 2^128.
    TooMany(u128),
    /// 2^128 or more.
    PastAll,
}

/// Whether the word is a number of slots: 1 to 39 decimal digits, and not the number zero.
pub(crate) fn is_numeral(word: &str) -> bool
    ensures { IsTrue result ↔ IsNumeral word.now }
{
    1 <= word.len()
        && word.len() <= LONGEST_NUMERAL
        && are_digits(word.as_bytes())
        && !is_zero(word)
}

/// Whether the word is a count: 1 to 9 decimal digits, and not the number zero.
pub(crate) fn is_count(word: &str) -> bool
    ensures { IsTrue result ↔ IsCount word.now }
{
    1 <= word.len() && word.len() <= LONGEST_COUNT && are_digits(word.as_bytes()) && !is_zero(word)
}

fn are_digits(bytes: &[u8]) -> bool
    ensures { result ≡ list_all is_ascii_digit bytes.now }
{
    bytes.iter().all(u8::is_ascii_digit)
}

fn is_zero(word: &str) -> bool
    requires some { 1 ≤ length word.now }
    requires digits { IsTrue (list_all is_ascii_digit word.now) }
    ensures { IsTrue result ↔ (digits_value 10 word.now ≡ 0) }
{
    matches!(word.parse::<u128>(), Ok(0))
}

/// What the number of a numeral comes to.
pub fn bound_of(word: &str) -> Bound
    requires { IsNumeral word.now }
    ensures { ComesTo (digits_value 10 word.now) result }
{
    match word.parse::<u128>() {
        Ok(number) => comes_to(number),
        Err(_) => Bound::PastAll,
    }
}

/// The number of a count.
pub fn count_of(word: &str) -> u32
    requires { IsCount word.now }
    ensures { result ≡ digits_value 10 word.now }
{
    match word.parse::<u32>() {
        Ok(count) => count,
        Err(_) => unreachable!(),
    }
}

/// What a number comes to.
pub fn comes_to(number: u128) -> Bound
    requires { 1 ≤ number }
    ensures { ComesTo number result }
{
    if number <= MOST_SLOTS {
        Bound::Slots(number as u32)
    } else {
        Bound::TooMany(number)
    }
}
