ghost use Rattle.std.specs.Prelude.{◌≤◌, ◌<◌, length, get_or};
ghost use Rattle.text_forms.specs.Bytes.{class_of};
ghost use Rattle.text_forms.specs.sexpr_text.Places.{classes_at, BeginsNoToken, EndsWord, HasFaultsFrom, IsPassed};

use crate::sexpr_text::classes::{Class, class_of};

/// The place behind the word that goes on at a place.
pub fn word_end(source: &[u8], from: usize) -> usize
    requires within { from ≤ length source.now }
    ensures later { from ≤ result }
    ensures within { result ≤ length source.now }
    ensures tokens { EndsWord source.now from result }
    ensures faults { HasFaultsFrom source.now (classes_at source.now from) from result }
{
    for i in from..source.len() {
        match class_of(source[i]) {
            Class::Letter => {}
            _ => return i,
        }
    }
    source.len()
}

/// The place behind what begins no token: a comment up to the end of its line, or one byte.
pub fn blank_end(source: &[u8], at: usize) -> usize
    requires within { at < length source.now }
    requires class { BeginsNoToken (class_of (get_or source.now at 0)) }
    ensures passed { IsPassed source.now at result (class_of (get_or source.now at 0)) }
{
    if source[at] != b';' {
        return at + 1;
    }
    for i in at + 1..source.len() {
        if source[i] == b'\n' {
            return i;
        }
    }
    source.len()
}
