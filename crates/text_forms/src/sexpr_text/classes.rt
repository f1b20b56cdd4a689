ghost use Rattle.std.specs.Prelude.{◌≡◌};
ghost use Rattle.text_forms.specs.Bytes.{class_of, class_in, comment_after};
ghost use Rattle.text_forms.specs.sexpr_text.Seen.{class_seen};

/// What a byte is where it stands. A comment is blank.
#[derive(Clone, Copy)]
pub enum Class {
    Blank,
    Opening,
    Closing,
    Letter,
    Bad,
}

/// A byte outside comments. The semicolon that opens a comment is blank.
pub fn class_of(byte: u8) -> Class
    ensures class { class_seen result ≡ class_of byte }
{
    // The commonest bytes come first: this is the whole cost of most texts.
    match byte {
        b'(' => Class::Opening,
        b')' => Class::Closing,
        b'<'..=b'~' => Class::Letter,
        b' ' | b';' | 9..=13 => Class::Blank,
        b'"' => Class::Bad,
        b'!'..=b':' => Class::Letter,
        _ => Class::Bad,
    }
}

/// A byte behind a part of the text in which a comment may have begun, and whether a comment goes on behind
/// the byte: it ends with its line.
pub fn class_in(comment: bool, byte: u8) -> (Class, bool)
    ensures class { class_seen result.0 ≡ class_in comment byte }
    ensures goes_on { result.1 ≡ comment_after comment byte }
{
    if comment {
        (Class::Blank, byte != b'\n')
    } else {
        (class_of(byte), byte == b';')
    }
}
