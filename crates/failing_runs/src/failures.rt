//! Every call that can fail fails once, or finds no memory, in every command.
use crate::commands::{COMMANDS, Command};
use crate::outside::{Broken, Call, LARGEST};
use crate::runs::{Before, Case, Ending};
use htn_base::Memory;
use htn_cli::Status;
use std::alloc::Global;
use std::process::Abort;
use std::test::Fail;

/// What may become of standard error. It changes nothing else.
const UNHEARD: &[Broken] = &[
    Broken::Nothing,
    Broken::Fails(Call::Write(0)),
    Broken::Fails(Call::Write(1)),
    Broken::FindsNoMemory(Call::Write(0)),
    Broken::FindsNoMemory(Call::Write(1)),
];

/// The run is refused so, whether its line is heard or not.
fn is_refused(
    rt: &impl Abort,
    alloc: Global,
    command: &Command,
    before: Before<'_>,
    broken: Broken,
    ending: &Ending<'_>,
) -> Result<(), Memory> {
    for unheard in UNHEARD {
        let case = Case {
            command,
            before,
            broken,
            unheard: *unheard,
        };
        case.ends(rt, alloc, ending)?;
    }
    Ok(())
}

/// Where the call fails the run ends so, and where it finds no memory with the same left.
fn breaks(
    rt: &impl Abort,
    alloc: Global,
    command: &Command,
    call: Call,
    ending: &Ending<'_>,
) -> Result<(), Memory> {
    is_refused(rt, alloc, command, Before::All, Broken::Fails(call), ending)?;
    let starved = Ending {
        status: Status::NoMemory,
        line: "out of memory\n",
        ..*ending
    };
    is_refused(
        rt,
        alloc,
        command,
        Before::All,
        Broken::FindsNoMemory(call),
        &starved,
    )
}

#[test]
fn nothing(rt: HostRuntime) -> Result<(), Fail> {
    for command in COMMANDS {
        Case::of(command, Before::All).ends(&rt, rt.alloc(), &command.done())?;
    }
    Ok(())
}

#[test]
fn gets(rt: HostRuntime) -> Result<(), Fail> {
    for command in COMMANDS {
        for (k, input) in (0..u32::MAX).zip(command.reads) {
            let line = format!(in rt.alloc(); "cannot read {}\n", input.name)?;
            let ending = Ending {
                status: Status::ReadFault,
                line: line.as_str(),
                told: "",
                stand: 0,
                calls: k as usize + 1,
            };
            breaks(&rt, rt.alloc(), command, Call::Get(k), &ending)?;
            // a name that isn't held
            is_refused(
                &rt,
                rt.alloc(),
                command,
                Before::Without(k),
                Broken::Nothing,
                &ending,
            )?;
        }
    }
    Ok(())
}

#[test]
fn puts(rt: HostRuntime) -> Result<(), Fail> {
    for command in COMMANDS {
        for (k, (name, _)) in (0..u32::MAX).zip(command.writes) {
            let line = format!(in rt.alloc(); "cannot write {name}\n")?;
            let ending = Ending {
                status: Status::WriteFault,
                line: line.as_str(),
                told: "",
                stand: k as usize,
                calls: (k as usize + 1).saturating_add(command.reads.len()),
            };
            breaks(&rt, rt.alloc(), command, Call::Put(k), &ending)?;
        }
    }
    Ok(())
}

/// What standard output took before is a beginning.
#[test]
fn writes(rt: HostRuntime) -> Result<(), Fail> {
    for command in COMMANDS {
        for (k, _) in (0..u32::MAX).zip(command.tells.as_bytes().chunks(LARGEST)) {
            let ending = Ending {
                status: Status::WriteFault,
                line: "cannot write standard output\n",
                told: command.tells.get(..k as usize * LARGEST).unwrap_or(""),
                stand: command.writes.len(),
                calls: command.calls(),
            };
            breaks(&rt, rt.alloc(), command, Call::Write(k), &ending)?;
        }
    }
    Ok(())
}

/// Words that are refused before any file is read, by their status and line.
const UNREAD: &[(Status, &str, &[&[&str]])] = &[
    (
        Status::Words,
        "words refused\n",
        &[
            &[],
            &["translate", "d", "p", "d", "op"],
            &["bound", "d"],
            &["decode", "d", "p", "plan", "--bound"],
            &["encode", "d", "p", "hplan", "--bound", "0"],
            &["validate", "d", "p", "plan", "--bound", "1"],
            // make
            &["make", "0", "od", "op"],
            &["make", "5", "od", "od"],
            &["make", "", "od", "op"],
        ],
    ),
    (
        Status::Limit,
        "limit slots 65537\n",
        &[
            &["translate", "d", "p", "od", "op", "--bound", "65537"],
            &["decode", "d", "p", "plan", "--bound", "65537"],
            &["encode", "d", "p", "hplan", "--bound", "65537"],
        ],
    ),
    (
        Status::Limit,
        "limit slots 4100\n",
        &[&["make", "820", "od", "op"]],
    ),
];

fn are_unread(
    rt: &impl Abort,
    alloc: Global,
    words: &'static [&'static str],
    ending: &Ending<'_>,
) -> Result<(), Memory> {
    let command = Command {
        words,
        reads: &[],
        writes: &[],
        tells: "",
    };
    is_refused(rt, alloc, &command, Before::All, Broken::Nothing, ending)
}

#[test]
fn unread(rt: HostRuntime) -> Result<(), Fail> {
    for (status, line, rows) in UNREAD {
        let ending = Ending {
            status: *status,
            line,
            told: "",
            stand: 0,
            calls: 0,
        };
        for words in *rows {
            are_unread(&rt, rt.alloc(), words, &ending)?;
        }
    }
    Ok(())
}
