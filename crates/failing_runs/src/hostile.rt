//! Hostile texts in the place of each text that a command reads. The lines were found by hand, from the rules for faults and limits.
use crate::commands::{COMMANDS, Command, Form};
use crate::runs::{Before, refuses};
use htn_base::Memory;
use htn_cli::Status;
use std::alloc::Global;
use std::process::Abort;
use std::test::Fail;

/// A text, as pieces with how often each stands; and how a run is refused that reads it, by what it is read as. A star stands for the
/// name of the file.
#[derive(Clone, Copy)]
struct Hostile {
    text: &'static [(&'static str, u32)],
    definition: (Status, &'static str),
    spelling: (Status, &'static str),
    steps: (Status, &'static str),
    tree: (Status, &'static str),
}

impl Hostile {
    fn refusal(&self, form: Form) -> (Status, &'static str) {
        match form {
            Form::Definition => self.definition,
            Form::Spelling => self.spelling,
            Form::Steps => self.steps,
            Form::Tree => self.tree,
        }
    }
}

/// Each 64 bytes of the blanks below.
const BLANKS: &str = "                                                                ";

const HOSTILE: &[Hostile] = &[
    Hostile {
        text: &[],
        definition: (Status::TextFault, "*:0: fault 5 NotADefine\n"),
        spelling: (Status::Finding, "not a plan: step 1 Unfinished\n"),
        steps: (Status::Finding, "not a plan: step 1 GoalFalse\n"),
        tree: (Status::TextFault, "*:0: fault 30 NoMarker\n"),
    },
    Hostile {
        text: &[("\0", 1)],
        definition: (Status::TextFault, "*:0: fault 1 BadByte\n"),
        spelling: (Status::TextFault, "*:0: fault 1 BadByte\n"),
        steps: (Status::TextFault, "*:0: fault 1 BadByte\n"),
        tree: (Status::TextFault, "*:1: fault 30 NoMarker\n"),
    },
    Hostile {
        text: &[(")", 1)],
        definition: (Status::TextFault, "*:0: fault 3 StrayClose\n"),
        spelling: (Status::TextFault, "*:0: fault 3 StrayClose\n"),
        steps: (Status::TextFault, "*:0: fault 3 StrayClose\n"),
        tree: (Status::TextFault, "*:1: fault 30 NoMarker\n"),
    },
    Hostile {
        text: &[("(", 201)],
        definition: (Status::TextFault, "*:200: fault 2 UnclosedParen\n"),
        spelling: (Status::TextFault, "*:200: fault 2 UnclosedParen\n"),
        steps: (Status::TextFault, "*:200: fault 2 UnclosedParen\n"),
        tree: (Status::TextFault, "*:201: fault 30 NoMarker\n"),
    },
    Hostile {
        text: &[("(", 201), (")", 201)],
        definition: (Status::Limit, "limit depth *:200\n"),
        spelling: (Status::Limit, "limit depth *:200\n"),
        steps: (Status::Limit, "limit depth *:200\n"),
        tree: (Status::TextFault, "*:402: fault 30 NoMarker\n"),
    },
    Hostile {
        text: &[("(", 200), (")", 200)],
        definition: (Status::TextFault, "*:1: fault 5 NotADefine\n"),
        spelling: (Status::TextFault, "*:1: fault 8 BadForm\n"),
        steps: (Status::TextFault, "*:1: fault 8 BadForm\n"),
        tree: (Status::TextFault, "*:400: fault 30 NoMarker\n"),
    },
    // 16,777,216 blanks, as many bytes as a text may have
    Hostile {
        text: &[(BLANKS, 262_144)],
        definition: (Status::TextFault, "*:16777216: fault 5 NotADefine\n"),
        spelling: (Status::Finding, "not a plan: step 1 Unfinished\n"),
        steps: (Status::Finding, "not a plan: step 1 GoalFalse\n"),
        tree: (Status::TextFault, "*:16777216: fault 30 NoMarker\n"),
    },
];

fn repeated(alloc: Global, pieces: &[(&str, u32)]) -> Result<String, Memory> {
    let mut text = String::new(alloc);
    for (piece, count) in pieces {
        for _ in 0..*count {
            text.push_str(piece)?;
        }
    }
    Ok(text)
}

/// The line with the name in the place of the star.
fn named(alloc: Global, line: &str, name: &str) -> Result<String, Memory> {
    match line.split_once('*') {
        Some((before, after)) => Ok(format!(in alloc; "{before}{name}{after}")?),
        None => Ok(String::from_str(alloc, line)?),
    }
}

/// Each text of the command in turn is the hostile one.
fn all_refuse(
    rt: &impl Abort,
    alloc: Global,
    command: &Command,
    text: &[u8],
    hostile: &Hostile,
) -> Result<(), Memory> {
    for (k, input) in (0..u32::MAX).zip(command.reads) {
        let (status, line) = hostile.refusal(input.form);
        let line = named(alloc, line, input.name)?;
        let calls = command.reads.len();
        refuses(
            rt,
            alloc,
            command,
            Before::With(k, text),
            status,
            line.as_str(),
            calls,
        )?;
    }
    Ok(())
}

#[test]
fn hostile_texts(rt: HostRuntime) -> Result<(), Fail> {
    for hostile in HOSTILE {
        let text = repeated(rt.alloc(), hostile.text)?;
        for command in COMMANDS {
            all_refuse(&rt, rt.alloc(), command, text.as_bytes(), hostile)?;
        }
    }
    Ok(())
}

/// Nothing is read behind it.
fn too_long(rt: &impl Abort, alloc: Global, command: &Command, text: &[u8]) -> Result<(), Memory> {
    for (k, input) in (0..u32::MAX).zip(command.reads) {
        let line = named(alloc, "limit bytes *\n", input.name)?;
        let calls = k as usize + 1;
        refuses(
            rt,
            alloc,
            command,
            Before::With(k, text),
            Status::Limit,
            line.as_str(),
            calls,
        )?;
    }
    Ok(())
}

/// 16,777,217 blanks.
#[test]
fn texts_that_are_too_long(rt: HostRuntime) -> Result<(), Fail> {
    let text = repeated(rt.alloc(), &[(BLANKS, 262_144), (" ", 1)])?;
    for command in COMMANDS {
        too_long(&rt, rt.alloc(), command, text.as_bytes())?;
    }
    Ok(())
}
