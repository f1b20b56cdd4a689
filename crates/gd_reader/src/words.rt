ghost use Rattle.std.specs.Prelude.{◌≡◌, drop};
ghost use Rattle.std.specs.Str.{bytes_eq};
ghost use Rattle.htn_base.specs.Words.{folded};
ghost use Rattle.gd_reader.specs.Words.{head_of, effect_head_of, sort_of, is_hyphen, is_either, begins_reserved};

use htn_base::is_reserved_in_any_case;

/// What a word begins at the front of a formula.
#[derive(Clone, Copy)]
pub enum Head {
    And,
    Or,
    Not,
    Imply,
    Forall,
    Exists,
    Equal,
    Plain,
    Wrong,
}

/// What a word begins at the front of an effect.
#[derive(Clone, Copy)]
pub enum EffectHead {
    And,
    Forall,
    When,
    Not,
    Increase,
    Plain,
    Wrong,
}

/// What a word is by its letters.
#[derive(Clone, Copy)]
pub enum Sort {
    Variable,
    Name,
    Other,
}

/// Whether a word is this one, in any case of its letters.
pub fn is_word(word: &[u8], key: &[u8]) -> bool
    ensures same { result ≡ bytes_eq (folded word.now) (folded key.now) }
{
    word.eq_ignore_ascii_case(key)
}

/// The sort of a word, in any case of its letters. Most words begin with a letter that begins no reserved word.
#[tactic(auto, using(crate::proofs::Sorts::sort_len0))]
pub fn sort_of(w: &[u8]) -> Sort
    ensures sort { result ≡ sort_of (folded w.now) }
{
    let [b, ..] = w else {
        return Sort::Other;
    };
    let b = b.to_ascii_lowercase();
    if b == b'?' {
        if w.len() > 1 {
            Sort::Variable
        } else {
            Sort::Other
        }
    } else if b == b':' || (begins_reserved(b) && is_reserved_in_any_case(w)) {
        Sort::Other
    } else {
        Sort::Name
    }
}

// Whether some reserved word begins with the letter.
fn begins_reserved(b: u8) -> bool
    ensures { result ≡ begins_reserved b }
{
    matches!(
        b,
        b'-' | b'<' | b'=' | b'a' | b'e' | b'f' | b'i' | b'n' | b'o' | b'w'
    )
}

/// A word without its first letter.
pub fn rest(w: &[u8]) -> &[u8]
    ensures rest { result.now ≡ drop 1 w.now }
{
    match w {
        [] => w,
        [_, tail @ ..] => tail,
    }
}

/// Whether a word is the sign in front of a type.
pub fn is_hyphen(word: &[u8]) -> bool
    ensures hyphen { result ≡ is_hyphen (folded word.now) }
{
    is_word(word, b"-")
}

/// Whether a word begins a union.
pub fn is_either(word: &[u8]) -> bool
    ensures either { result ≡ is_either (folded word.now) }
{
    is_word(word, b"either")
}

/// The head of a formula, in any case of its letters.
#[tactic(auto, unfolding(crate::specs::Words::head_of))]
pub fn head_of(w: &[u8]) -> Head
    ensures head { result ≡ head_of (folded w.now) }
{
    if is_word(w, b"and") {
        Head::And
    } else if is_word(w, b"or") {
        Head::Or
    } else if is_word(w, b"not") {
        Head::Not
    } else if is_word(w, b"imply") {
        Head::Imply
    } else if is_word(w, b"forall") {
        Head::Forall
    } else if is_word(w, b"exists") {
        Head::Exists
    } else if is_word(w, b"=") {
        Head::Equal
    } else if matches!(sort_of(w), Sort::Name) {
        Head::Plain
    } else {
        Head::Wrong
    }
}

/// The head of an effect, in any case of its letters.
#[tactic(auto, unfolding(crate::specs::Words::effect_head_of))]
pub fn effect_head_of(w: &[u8]) -> EffectHead
    ensures head { result ≡ effect_head_of (folded w.now) }
{
    if is_word(w, b"and") {
        EffectHead::And
    } else if is_word(w, b"forall") {
        EffectHead::Forall
    } else if is_word(w, b"when") {
        EffectHead::When
    } else if is_word(w, b"not") {
        EffectHead::Not
    } else if is_word(w, b"increase") {
        EffectHead::Increase
    } else if matches!(sort_of(w), Sort::Name) {
        EffectHead::Plain
    } else {
        EffectHead::Wrong
    }
}
