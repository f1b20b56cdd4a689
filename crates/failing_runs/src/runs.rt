//! A run of a command, and how it ends.
use crate::commands::{Command, Input};
use crate::outside::{Broken, CountedFiles, CountedSink};
use htn_base::Memory;
use htn_cli::{Status, run};
use std::alloc::Global;
use std::process::Abort;

/// What each name holds before a run that the run may write.
const OLD: &str = "old";

/// The files before a run: the inputs of its command, or without one, or with another text in its place.
#[derive(Clone, Copy)]
pub(crate) enum Before<'t> {
    All,
    Without(u32),
    With(u32, &'t [u8]),
}

/// A command, the files before it, the call that is broken, and the one of standard error that is.
#[derive(Clone, Copy)]
pub(crate) struct Case<'t> {
    pub(crate) command: &'t Command,
    pub(crate) before: Before<'t>,
    pub(crate) broken: Broken,
    pub(crate) unheard: Broken,
}

/// How a run ends: its status, its line, what standard output took, how many of its texts stand, and how many gets and
/// puts it made.
#[derive(Clone, Copy)]
pub(crate) struct Ending<'t> {
    pub(crate) status: Status,
    pub(crate) line: &'t str,
    pub(crate) told: &'t str,
    pub(crate) stand: usize,
    pub(crate) calls: usize,
}

impl Command {
    /// How it ends where nothing is broken.
    pub(crate) fn done(&self) -> Ending<'static> {
        Ending {
            status: Status::Done,
            line: "",
            told: self.tells,
            stand: self.writes.len(),
            calls: self.calls(),
        }
    }
}

/// Nothing is broken, and the run is refused after so many gets.
pub(crate) fn refuses(
    rt: &impl Abort,
    alloc: Global,
    command: &Command,
    before: Before<'_>,
    status: Status,
    line: &str,
    calls: usize,
) -> Result<(), Memory> {
    let ending = Ending {
        status,
        line,
        told: "",
        stand: 0,
        calls,
    };
    Case::of(command, before).ends(rt, alloc, &ending)
}

impl<'t> Case<'t> {
    /// Nothing is broken.
    pub(crate) fn of(command: &'t Command, before: Before<'t>) -> Case<'t> {
        Case {
            command,
            before,
            broken: Broken::Nothing,
            unheard: Broken::Nothing,
        }
    }

    /// What input number `k` holds before the run.
    fn text(&self, k: u32, input: &Input) -> Option<&'t [u8]> {
        match self.before {
            Before::Without(missing) if missing == k => None,
            Before::With(changed, text) if changed == k => Some(text),
            _ => Some(input.text.as_bytes()),
        }
    }

    fn files(&self, alloc: Global) -> Result<CountedFiles, Memory> {
        let mut files = CountedFiles::new(alloc, self.broken)?;
        for (k, input) in (0..u32::MAX).zip(self.command.reads) {
            if let Some(text) = self.text(k, input) {
                files.held.add(input.name, text)?;
            }
        }
        for (name, _) in self.command.writes {
            files.held.add(name, OLD.as_bytes())?;
        }
        Ok(files)
    }

    /// The inputs are as they were, and so are the outputs, but those that stand.
    fn left(&self, rt: &impl Abort, files: &CountedFiles, stand: usize) {
        for (k, input) in (0..u32::MAX).zip(self.command.reads) {
            assert!(rt;
                files.held.bytes(input.name) == self.text(k, input),
                "{}",
                input.name
            );
        }
        for (k, (name, text)) in self.command.writes.iter().enumerate() {
            let text = if k < stand { text } else { OLD };
            assert!(rt; files.held.bytes(name) == Some(text.as_bytes()), "{name}");
        }
    }

    /// The run ends so.
    pub(crate) fn ends(
        &self,
        rt: &impl Abort,
        alloc: Global,
        ending: &Ending<'_>,
    ) -> Result<(), Memory> {
        let words = words_of(alloc, self.command.words)?;
        let mut files = self.files(alloc)?;
        let mut out = CountedSink::new(alloc, self.broken)?;
        let mut err = CountedSink::new(alloc, self.unheard)?;
        let status = run(alloc, words.as_slice(), &mut files, &mut out, &mut err);
        assert_eq!(rt; status, ending.status, "{}", ending.line);
        assert!(rt;
            out.taken.bytes() == ending.told.as_bytes(),
            "{}",
            ending.line
        );
        assert!(rt;
            hears(self.unheard, err.taken.bytes(), ending.line.as_bytes()),
            "{}",
            ending.line
        );
        assert!(rt;
            files.all_asked && files.calls() == ending.calls,
            "{}",
            ending.line
        );
        self.left(rt, &files, ending.stand);
        Ok(())
    }
}

/// Standard error has the line, or its beginning where a write of it is broken.
fn hears(unheard: Broken, heard: &[u8], line: &[u8]) -> bool {
    match unheard {
        Broken::Nothing => heard == line,
        _ => heard.len() < line.len() && line.starts_with(heard),
    }
}

fn words_of(alloc: Global, words: &[&str]) -> Result<Vec<String>, Memory> {
    let mut owned = Vec::new(alloc);
    for word in words {
        owned.push(String::from_str(alloc, word)?)?;
    }
    Ok(owned)
}
