//! Each call that may want memory is made once with ample memory, and its answer compared.

use htn_base::{Fault, Memory, Text};
use std::alloc::Global;
use std::process::Abort;
use text_forms::sexpr_text::{Kind, ReadError, Sexprs, read};

const ACTION: &[u8] = b"(define (domain d) (:action a :parameters ()))";

// The code and the offset of the fault for which a text is refused, if it is.
fn refusal(rt: &impl Abort, alloc: Global, source: &[u8]) -> Option<(u16, u32)> {
    assert!(rt; source.len() <= 16_777_216);
    match read(alloc, source, 1) {
        Ok(s) => {
            drop(s);
            None
        }
        Err(ReadError::Bad(Fault { code, file, at })) => {
            assert!(rt; file == 1);
            Some((code, at))
        }
        Err(ReadError::Memory) => panic!(rt; "out of memory"),
    }
}

// Where the innermost list stands that is open behind so many bytes of the text of an action.
fn innermost(bytes: usize) -> Option<u32> {
    match bytes {
        0 | 46 => None,
        9..=17 => Some(8),
        20..=42 | 44 => Some(19),
        43 => Some(42),
        _ => Some(0),
    }
}

#[test]
fn truncated_texts_have_an_unclosed_list(rt: HostRuntime) {
    for bytes in 0..47 {
        let found = refusal(&rt, rt.alloc(), &ACTION[..bytes]);
        assert!(rt; found == innermost(bytes).map(|at| (2, at)), "at {bytes}");
    }
}

const FAULTS: &[(&[u8], u16, u32)] = &[
    (b"a\0b", 1, 1),
    (b")", 3, 0),
    (b"(a))(", 3, 3),
    (b"(a \"", 2, 0),
    (b"a \" (", 1, 2),
    (b"(\"", 2, 0),
    (b"(\")", 1, 1),
];

#[test]
fn least_faults(rt: HostRuntime) {
    for (source, code, at) in FAULTS {
        let found = refusal(&rt, rt.alloc(), source);
        assert!(rt; found == Some((*code, *at)), "at {at}");
    }
    assert!(rt; refusal(&rt, rt.alloc(), b"a;\0\"(\n b").is_none());
}

// So many opening parentheses, and then so many closing ones.
fn nested(openings: u32, closings: u32, text: &mut Text) -> Result<(), Memory> {
    for _ in 0..openings {
        text.push(b'(')?;
    }
    for _ in 0..closings {
        text.push(b')')?;
    }
    Ok(())
}

fn nested_refusal(
    rt: &impl Abort,
    alloc: Global,
    openings: u32,
    closings: u32,
) -> Option<(u16, u32)> {
    let mut text = Text::new(alloc);
    let put = nested(openings, closings, &mut text);
    let found = refusal(rt, alloc, text.as_slice());
    drop(text);
    assert!(rt; put.is_ok());
    found
}

#[test]
fn at_most_200_lists_are_open(rt: HostRuntime) {
    assert!(rt; nested_refusal(&rt, rt.alloc(), 201, 201) == Some((4, 200)));
    assert!(rt; nested_refusal(&rt, rt.alloc(), 201, 0) == Some((2, 200)));
    let mut text = Text::new(rt.alloc());
    let put = nested(200, 200, &mut text);
    let deepest = has_200_lists(&rt, rt.alloc(), text.as_slice());
    drop(text);
    assert!(rt; put.is_ok() && deepest);
}

fn has_200_lists(rt: &impl Abort, alloc: Global, source: &[u8]) -> bool {
    assert!(rt; source.len() <= 16_777_216);
    let s = read(alloc, source, 0)
        .ok()
        .expect(rt, "a text of 200 lists");
    let sizes = (s.len(), s.text_len());
    let closes = (s.close_of(0), s.close_of(199), s.close_of(200));
    drop(s);
    sizes == (400, 400) && closes == (Some(399), Some(200), None)
}

const TOKENS: &[(u32, Kind, &[u8], u32, u32)] = &[
    (0, Kind::Start, b"(", 0, 1),
    (1, Kind::Word, b"Ab", 1, 3),
    (2, Kind::Word, b"?x", 8, 10),
    (3, Kind::Start, b"(", 11, 12),
    (4, Kind::Word, b"-", 12, 13),
    (5, Kind::Stop, b")", 13, 14),
    (6, Kind::Stop, b")", 15, 16),
];

const CLOSES: &[(u32, Option<u32>)] = &[
    (0, Some(6)),
    (1, None),
    (3, Some(5)),
    (6, None),
    (7, None),
];

fn are_tokens(rt: &impl Abort, s: &Sexprs<'_>) {
    assert!(rt; (s.len(), s.text_len()) == (7, 16));
    for (i, kind, word, start, end) in TOKENS {
        let token = s.token(*i).expect(rt, "a token");
        assert!(rt; token.kind == *kind && token.word == *word, "at {i}");
        assert!(rt;
            (token.span.start, token.span.end) == (*start, *end),
            "at {i}"
        );
    }
    assert!(rt; s.token(7).is_none());
    for (i, close) in CLOSES {
        assert!(rt; s.close_of(*i) == *close, "at {i}");
    }
}

#[test]
fn tokens(rt: HostRuntime) {
    let s = read(rt.alloc(), b"(Ab;(c\n ?x (-) )", 0)
        .ok()
        .expect(&rt, "a text");
    are_tokens(&rt, &s);
    drop(s);
}
