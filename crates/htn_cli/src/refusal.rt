ghost use Rattle.std.specs.Prelude.{◌≡◌, ◌++◌, codes};
ghost use Rattle.htn_cli.specs.Refusal.{cause_word, counted_word, why_word, status_of, failure_status, line_of};
ghost use Rattle.htn_cli.specs.Line.{line_text};

use crate::faults::{Counted, Place};
use crate::status::Status;
use decoding::Why;
use ground_state::FailWhy;
use htn_base::Text;

/// Why a run ends before its outputs stand. Files are named by their words.
pub enum Refusal<'a> {
    /// The words are of no command's form.
    Words,
    /// A text has a fault that is no limit: its place and its code.
    Fault(Place<'a>, u16),
    /// There is too much of what is counted.
    Limit(Limit<'a>),
    /// The answer of the command is no.
    Finding(Finding),
    /// Something outside failed, or memory was refused.
    Failure(Failure<'a>),
}

/// What is counted and past its limit.
#[derive(Clone, Copy)]
pub enum Limit<'a> {
    /// The number of slots, or the bound, is 2^128 or more.
    Bound,
    /// More ground tasks, actions and methods are reached together than are counted.
    Ground,
    /// There are more slots than are printed: so many.
    Slots(u128),
    /// An input text has too many bytes.
    Bytes(&'a str),
    /// A text has too much of what is counted in it: from this place on.
    Text(Counted, Place<'a>),
    /// A plan has too many steps: so many.
    Steps(usize),
    /// A hierarchical plan has too many lines with an id: so many.
    Lines(u128),
    /// A printed text is too long: so many bytes.
    Output(u64),
}

/// What a command found.
#[derive(Drop)]
pub enum Finding {
    /// The problem is not tail-recursive, or not in what is reached: the words of the named bad cycle, each behind a space.
    NotTailRecursive(Text),
    /// A method isn't totally ordered: the word of the first.
    NotTotallyOrdered(Text),
    /// The list is no plan: the first step that fails, counted from 1, and its first cause.
    NotAPlan(u32, FailWhy),
    /// The list spells no solution: the step that fails, counted from 1, and its first cause.
    SpellsNoSolution(u32, Why),
    /// No ground method fits the root of a hierarchical plan, or the line with this id is the first that none fits.
    NoMatch(Option<u64>),
    /// The line with this id is the first whose action's condition is false.
    NotExecutable(u64),
    /// The goal is false after the plan's actions.
    GoalFalse,
    /// No solution shows the plan.
    NoPlacement,
    /// The width of its latest schedule, which is greater than the given number of slots.
    NeedsBound(u32),
    /// The problem has no solution: its top method isn't live, or its goal can't be so.
    NoSolution,
}

/// What failed.
#[derive(Clone, Copy)]
pub enum Failure<'a> {
    /// A get of this file.
    Reading(&'a str),
    /// A put of this file.
    Writing(&'a str),
    /// Standard output.
    Telling,
    /// Memory was refused.
    Memory,
}

impl Drop for Refusal<'_> {
    fn drop(self) {
        match self {
            Refusal::Words => {}
            Refusal::Fault(_, _) => {}
            Refusal::Limit(_) => {}
            Refusal::Finding(_) => {}
            Refusal::Failure(_) => {}
        }
    }
}

/// The line of a refusal in three parts.
#[derive(Clone, Copy)]
pub(crate) struct Line<'a> {
    pub(crate) before: &'static str,
    pub(crate) middle: Middle<'a>,
    pub(crate) after: &'static str,
}

/// What stands in the middle of a line.
#[derive(Clone, Copy)]
pub(crate) enum Middle<'a> {
    /// The word of a file, words that are each behind a space, or nothing.
    Words(&'a [u8]),
    /// A number, in decimal.
    Number(u128),
    /// A place.
    Place(Place<'a>),
    /// The fault with this code, and its place.
    Fault(Place<'a>, u16),
}

impl Refusal<'_> {
    /// The status of a run that ends so.
    pub(crate) fn status(&self) -> Status
        ensures { result ≡ status_of self.now }
    {
        match self {
            Refusal::Words => Status::Words,
            Refusal::Fault(_, _) => Status::TextFault,
            Refusal::Limit(_) => Status::Limit,
            Refusal::Finding(_) => Status::Finding,
            Refusal::Failure(failure) => failure.status(),
        }
    }

    /// The line that is told on standard error.
    pub(crate) fn line(&self) -> Line<'_>
        ensures { line_text result ≡ line_of self.now }
    {
        match self {
            Refusal::Words => Line {
                before: "words refused\n",
                middle: Middle::Words(b""),
                after: "",
            },
            Refusal::Fault(place, code) => Line {
                before: "",
                middle: Middle::Fault(*place, *code),
                after: "\n",
            },
            Refusal::Limit(limit) => limit.line(),
            Refusal::Finding(finding) => finding.line(),
            Refusal::Failure(failure) => failure.line(),
        }
    }
}

impl Limit<'_> {
    fn line(&self) -> Line<'_>
        ensures { line_text result ≡ line_of (Refusal.Limit self.now) }
    {
        let (before, middle, after) = match self {
            Limit::Bound => ("limit bound\n", Middle::Words(b""), ""),
            Limit::Ground => ("limit ground\n", Middle::Words(b""), ""),
            Limit::Slots(slots) => ("limit slots ", Middle::Number(*slots), "\n"),
            Limit::Bytes(name) => ("limit bytes ", Middle::Words(name.as_bytes()), "\n"),
            Limit::Text(counted, place) => (limit_start(*counted), Middle::Place(*place), "\n"),
            Limit::Steps(steps) => ("limit steps ", Middle::Number(*steps as u128), "\n"),
            Limit::Lines(lines) => ("limit lines ", Middle::Number(*lines), "\n"),
            Limit::Output(size) => ("limit output ", Middle::Number(*size as u128), "\n"),
        };
        Line {
            before,
            middle,
            after,
        }
    }
}

/// The line of a limit in a text up to the place.
fn limit_start(counted: Counted) -> &'static str
    ensures { result.now ≡ codes "limit " ++ counted_word counted ++ codes " " }
{
    match counted {
        Counted::Depth => "limit depth ",
        Counted::Subtasks => "limit subtasks ",
        Counted::Types => "limit types ",
    }
}

impl Finding {
    fn line(&self) -> Line<'_>
        ensures { line_text result ≡ line_of (Refusal.Finding self.now) }
    {
        let (before, middle, after) = match self {
            Finding::NotTailRecursive(words) => {
                ("not tail-recursive:", Middle::Words(words.as_slice()), "\n")
            }
            Finding::NotTotallyOrdered(word) => {
                (
                    "not totally ordered: ",
                    Middle::Words(word.as_slice()),
                    "\n",
                )
            }
            Finding::NotAPlan(step, why) => {
                (
                    "not a plan: step ",
                    Middle::Number(*step as u128),
                    failure_end(*why),
                )
            }
            Finding::SpellsNoSolution(step, why) => {
                (
                    "not a plan: step ",
                    Middle::Number(*step as u128),
                    reason_end(*why),
                )
            }
            Finding::NoMatch(None) => ("no match: root\n", Middle::Words(b""), ""),
            Finding::NoMatch(Some(id)) => ("no match: line ", Middle::Number(*id as u128), "\n"),
            Finding::NotExecutable(id) => {
                ("not executable: line ", Middle::Number(*id as u128), "\n")
            }
            Finding::GoalFalse => ("goal false\n", Middle::Words(b""), ""),
            Finding::NoPlacement => ("no placement\n", Middle::Words(b""), ""),
            Finding::NeedsBound(width) => ("needs bound ", Middle::Number(*width as u128), "\n"),
            Finding::NoSolution => ("no solution\n", Middle::Words(b""), ""),
        };
        Line {
            before,
            middle,
            after,
        }
    }
}

/// The line of a list that is no plan, behind the number of the step.
fn failure_end(why: FailWhy) -> &'static str
    ensures { result.now ≡ codes " " ++ cause_word why ++ codes "\n" }
{
    match why {
        FailWhy::UnknownAction => " UnknownAction\n",
        FailWhy::Arguments => " Arguments\n",
        FailWhy::Condition => " Condition\n",
        FailWhy::GoalFalse => " GoalFalse\n",
    }
}

/// The line of a list that spells no solution, behind the number of the step.
fn reason_end(why: Why) -> &'static str
    ensures { result.now ≡ codes " " ++ why_word why ++ codes "\n" }
{
    match why {
        Why::UnknownAction => " UnknownAction\n",
        Why::Arguments => " Arguments\n",
        Why::SlotHolds => " SlotHolds\n",
        Why::Waiting => " Waiting\n",
        Why::SlotTaken => " SlotTaken\n",
        Why::Constraint => " Constraint\n",
        Why::Precondition => " Precondition\n",
        Why::Unfinished => " Unfinished\n",
        Why::GoalFalse => " GoalFalse\n",
    }
}

impl Failure<'_> {
    fn status(&self) -> Status
        ensures { result ≡ failure_status self.now }
    {
        match self {
            Failure::Reading(_) => Status::ReadFault,
            Failure::Writing(_) | Failure::Telling => Status::WriteFault,
            Failure::Memory => Status::NoMemory,
        }
    }

    fn line(&self) -> Line<'_>
        ensures { line_text result ≡ line_of (Refusal.Failure self.now) }
    {
        let (before, middle, after) = match self {
            Failure::Reading(name) => ("cannot read ", Middle::Words(name.as_bytes()), "\n"),
            Failure::Writing(name) => ("cannot write ", Middle::Words(name.as_bytes()), "\n"),
            Failure::Telling => ("cannot write standard output\n", Middle::Words(b""), ""),
            Failure::Memory => ("out of memory\n", Middle::Words(b""), ""),
        };
        Line {
            before,
            middle,
            after,
        }
    }
}
