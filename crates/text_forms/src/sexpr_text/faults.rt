ghost use Rattle.std.specs.Prelude.{◌≡◌, ◌≤◌, ◌<◌, ◌^◌, length, IfOk, OnOk};
ghost use Rattle.htn_base.specs.Limits.{longest_input};
ghost use Rattle.text_forms.specs.Bytes.{classes_from};
ghost use Rattle.text_forms.specs.Faults.{open_after, code_at};
ghost use Rattle.text_forms.specs.Least.{left_open};
ghost use Rattle.text_forms.specs.sexpr_text.Seen.{class_seen, least_in, opened, TellsFault};

use crate::sexpr_text::classes::{Class, class_in};
use htn_base::limits::DEEPEST;
use htn_base::{Fault, Memory};
use std::alloc::Global;

// Codes of faults.
const BAD_BYTE: u16 = 1;

const UNCLOSED_LIST: u16 = 2;

const STRAY_CLOSE: u16 = 3;

const TOO_DEEP: u16 = 4;

/// The fault of a text that comes first, by place and then code. A byte's fault does not end the pass: a
/// list in front of it that is left open at the end comes before it.
pub fn first_fault(alloc: Global, source: &[u8], file: u8) -> Result<Option<Fault>, Memory>
    requires short { length source.now ≤ longest_input }
    ensures least { IfOk result (λ found. found ≡ least_in file source.now) }
{
    let mut open_lists: Vec<u32> = Vec::new(alloc);
    let mut comment = false;
    for (i, byte) in source.iter().enumerate() {
        let at = i as u32;
        let (class, goes_on) = class_in(comment, *byte);
        comment = goes_on;
        if let Some(code) = enter(&mut open_lists, at, class)? {
            // A list that is left open stands in front of the byte, or is its own.
            return match left_open(&source[i + 1..], comment, open_lists) {
                Some(start) => Ok(Some(Fault {
                    code: UNCLOSED_LIST,
                    file,
                    at: start,
                })),
                None => Ok(Some(Fault { code, file, at })),
            };
        }
    }
    match open_lists.pop() {
        Some(start) => Ok(Some(Fault {
            code: UNCLOSED_LIST,
            file,
            at: start,
        })),
        None => Ok(None),
    }
}

/// Whether a byte is a fault where so many lists are open in front of it.
pub fn is_fault(class: Class, depth: usize) -> bool
    ensures fault { TellsFault result depth (class_seen class) }
{
    match class {
        Class::Blank | Class::Letter => false,
        Class::Bad => true,
        Class::Opening => depth >= DEEPEST,
        Class::Closing => depth == 0,
    }
}

// One byte: the lists that are open behind it, and the code of the fault that it is.
fn enter(open_lists: &mut Vec<u32>, at: u32, class: Class) -> Result<Option<u16>, Memory>
    ensures open_lists { OnOk result
        (opened open_lists.new ≡ open_after (opened open_lists.old) at (class_seen class)) }
    ensures code { IfOk result (λ code. code ≡ code_at (opened open_lists.old) (class_seen class)) }
{
    match class {
        Class::Blank | Class::Letter => Ok(None),
        Class::Bad => Ok(Some(BAD_BYTE)),
        Class::Opening => {
            let deep = open_lists.len() >= DEEPEST;
            open_lists.push(at)?;
            if deep { Ok(Some(TOO_DEEP)) } else { Ok(None) }
        }
        Class::Closing => match open_lists.pop() {
            Some(_) => Ok(None),
            None => Ok(Some(STRAY_CLOSE)),
        },
    }
}

// The innermost of these lists, where it is the innermost that is open at the end of the text.
fn left_open(source: &[u8], comment: bool, mut open_lists: Vec<u32>) -> Option<u32>
    requires short { length source.now < 2 ^ 32 }
    ensures left { result ≡ left_open 0 (opened open_lists) (classes_from comment source.now) }
{
    // How many lists are open that are newer than these.
    let mut newer: u32 = 0;
    let mut inside = comment;
    for byte in source {
        let (class, goes_on) = class_in(inside, *byte);
        inside = goes_on;
        match class {
            Class::Opening => newer += 1,
            Class::Closing if newer > 0 => newer -= 1,
            Class::Closing => {
                let _ = open_lists.pop();
            }
            _ => {}
        }
    }
    if newer > 0 { None } else { open_lists.pop() }
}
