ghost use Rattle.std.specs.Prelude.{◌≡◌, ◌≤◌, length};
ghost use Rattle.text_forms.specs.Bytes as defined;
ghost use Rattle.text_forms.specs.sexpr_text.Places.{tokens_at, EndsWord};
ghost use Rattle.htn_base.specs.Words.{IsFolded};
ghost use Rattle.plan_text.specs.Coming.{comment_tokens_at, is_clean_at, is_comment_clean_at, Tells};

/// What comes next in a text, and the place behind it.
#[derive(Clone, Copy)]
pub(crate) enum Token<'t> {
    End,
    Open(usize),
    Close(usize),
    Word(&'t [u8], usize),
    Bad,
}

/// What comes next from a place on, where no word is under way and no comment goes on. The text is in lower case.
pub(crate) fn token_at(text: &[u8], from: usize) -> Token<'_>
    requires folded { IsFolded text.now }
    requires within { from ≤ length text.now }
    ensures token { Tells text.now from result }
{
    let mut at = from;
    while at < text.len() {
        match text[at] {
            b' ' | 9..=13 => at += 1,
            b';' => at = line_end(text, at + 1),
            b'(' => return Token::Open(at + 1),
            b')' => return Token::Close(at + 1),
            byte if is_letter(byte) => {
                let end = word_end(text, at + 1);
                return Token::Word(&text[at..end], end);
            }
            _ => return Token::Bad,
        }
    }
    Token::End
}

fn is_letter(byte: u8) -> bool
    ensures { result ≡ defined.is_letter byte }
{
    matches!(byte, b'!' | b'#'..=b'\'' | b'*'..=b':' | b'<'..=b'~')
}

// The place behind the word that goes on at a place.
fn word_end(text: &[u8], from: usize) -> usize
    requires within { from ≤ length text.now }
    ensures later { from ≤ result }
    ensures within { result ≤ length text.now }
    ensures word { EndsWord text.now from result }
    ensures clean { is_clean_at text.now from ≡ is_clean_at text.now result }
{
    for i in from..text.len() {
        if !is_letter(text[i]) {
            return i;
        }
    }
    text.len()
}

// The end of the line that goes on at a place, within a comment.
fn line_end(text: &[u8], from: usize) -> usize
    requires within { from ≤ length text.now }
    ensures later { from ≤ result }
    ensures within { result ≤ length text.now }
    ensures tokens { comment_tokens_at text.now from ≡ tokens_at text.now result }
    ensures clean { is_comment_clean_at text.now from ≡ is_clean_at text.now result }
{
    for i in from..text.len() {
        if text[i] == b'\n' {
            return i;
        }
    }
    text.len()
}
