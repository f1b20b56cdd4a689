ghost use Rattle.std.specs.Prelude.{◌≡◌, IfOk};
ghost use Rattle.std.specs.List.{list_all};
ghost use Rattle.htn_base.specs.Words.{folded};
ghost use Rattle.text_forms.specs.StepWords as defined;

use htn_base::{Memory, Text};
use std::alloc::Global;

/// Whether a word may be a name in a step.
pub(crate) fn is_step_name(word: &[u8]) -> bool
    ensures { result ≡ defined.is_step_name (folded word.now) }
{
    match word {
        [] => false,
        [first, ..] => *first != b'?' && *first != b':',
    }
}

/// Whether a word is a mark: digits and a final colon.
#[tactic(auto, using(crate::proofs::Marks::other_end, crate::proofs::Marks::colon_alone, crate::proofs::Marks::colon_behind))]
pub(crate) fn is_mark(word: &[u8]) -> bool
    ensures { result ≡ defined.is_mark (folded word.now) }
{
    match word.split_last() {
        None => false,
        Some((last, front)) => *last == b':' && !front.is_empty() && are_digits(front),
    }
}

fn are_digits(bytes: &[u8]) -> bool
    ensures { result ≡ list_all defined.is_digit bytes.now }
{
    bytes.iter().all(|byte| byte.is_ascii_digit())
}

/// The word in lower case.
pub(crate) fn in_lower_case(alloc: Global, word: &[u8]) -> Result<Text, Memory>
    ensures { IfOk result (λ text. text ≡ folded word.now) }
{
    let mut text = Text::new(alloc);
    text.reserve(word.len())?;
    for byte in word {
        text.push(byte.to_ascii_lowercase())?;
    }
    Ok(text)
}
