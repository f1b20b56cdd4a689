//! Each beginning of each text that a command reads.
use crate::commands::{COMMANDS, Command, Form, Input};
use crate::runs::{Before, Case, refuses};
use htn_base::Memory;
use htn_cli::Status;
use std::alloc::Global;
use std::process::Abort;
use std::test::Fail;

/// The innermost list that is open at the end of a text without comments.
fn open_list(text: &[u8]) -> Option<usize> {
    let mut closed: usize = 0;
    for at in (0..text.len()).rev() {
        match text[at] {
            b')' => closed = closed.saturating_add(1),
            b'(' if closed == 0 => return Some(at),
            b'(' => closed = closed.saturating_sub(1),
            _ => (),
        }
    }
    None
}

/// The rule for the innermost list, on a text of which the lists were counted by hand.
#[test]
fn open_lists(rt: HostRuntime) {
    let text = "(define (domain d) (:action a :parameters ()))".as_bytes();
    for (length, list) in [
        (0, None),
        (1, Some(0)),
        (8, Some(0)),
        (9, Some(8)),
        (17, Some(8)),
        (18, Some(0)),
    ] {
        assert!(rt; open_list(text.get(..length).unwrap_or(b"")) == list);
    }
    for (length, list) in [
        (20, Some(19)),
        (42, Some(19)),
        (43, Some(42)),
        (44, Some(19)),
        (45, Some(0)),
        (46, None),
    ] {
        assert!(rt; open_list(text.get(..length).unwrap_or(b"")) == list);
    }
}

/// The line of a run that reads this beginning of the text, or nothing where the run is done.
fn line_of(alloc: Global, input: &Input, beginning: &[u8]) -> Result<String, Memory> {
    match input.form {
        Form::Tree => line_of_tree(alloc, input, beginning.len()),
        _ => match open_list(beginning) {
            Some(at) => Ok(format!(in alloc; "{}:{at}: fault 2 UnclosedParen\n", input.name)?),
            None => line_of_lists(alloc, input, beginning),
        },
    }
}

/// A hierarchical plan needs its end line, of which the newline may be missing.
fn line_of_tree(alloc: Global, input: &Input, length: usize) -> Result<String, Memory> {
    if length.saturating_add(1) < input.text.len() {
        Ok(format!(in alloc; "{}:{length}: fault 30 NoMarker\n", input.name)?)
    } else {
        Ok(String::new(alloc))
    }
}

/// A domain or a problem is one list, and a plan three.
fn line_of_lists(alloc: Global, input: &Input, beginning: &[u8]) -> Result<String, Memory> {
    let lists = beginning.iter().filter(|byte| **byte == b')').count();
    let step = lists.saturating_add(1);
    match input.form {
        Form::Definition if lists == 0 => Ok(format!(in alloc;
            "{}:0: fault 5 NotADefine\n",
            input.name
        )?),
        Form::Spelling if lists < 3 => Ok(format!(in alloc;
            "not a plan: step {step} Unfinished\n"
        )?),
        Form::Steps if lists < 3 => Ok(format!(in alloc; "not a plan: step {step} GoalFalse\n")?),
        _ => Ok(String::new(alloc)),
    }
}

fn ends(
    rt: &impl Abort,
    alloc: Global,
    command: &Command,
    before: Before<'_>,
    line: &str,
) -> Result<(), Memory> {
    if line.is_empty() {
        return Case::of(command, before).ends(rt, alloc, &command.done());
    }
    let status = if line.starts_with("not a plan") {
        Status::Finding
    } else {
        Status::TextFault
    };
    refuses(
        rt,
        alloc,
        command,
        before,
        status,
        line,
        command.reads.len(),
    )
}

#[test]
fn beginnings(rt: HostRuntime) -> Result<(), Fail> {
    for command in COMMANDS {
        for (k, input) in (0..u32::MAX).zip(command.reads) {
            for length in 0..=input.text.len() {
                let beginning = input.text.as_bytes().get(..length).unwrap_or(b"");
                let line = line_of(rt.alloc(), input, beginning)?;
                ends(
                    &rt,
                    rt.alloc(),
                    command,
                    Before::With(k, beginning),
                    line.as_str(),
                )?;
            }
        }
    }
    Ok(())
}
