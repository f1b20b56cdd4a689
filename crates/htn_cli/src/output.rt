ghost use Rattle.std.specs.Prelude.{◌≡◌, ◌≤◌, ◌++◌, codes, decimal, length, IfOk, IfErr, OnOk};
ghost use Rattle.htn_base.specs.Limits.{longest_output};
ghost use Rattle.htn_cli.specs.Lines.{bound_line, count_line, kept_line, slots_line, valid_line};
ghost use Rattle.htn_cli.specs.MakeStops.{summary_of};
ghost use Rattle.htn_cli.specs.Stops.{IsWant};

use crate::refusal::{Failure, Refusal};
use htn_base::{Memory, Text};
use itoa::Buffer;
use problem_texts::Texts;
use std::alloc::Global;

/// What a command gives: texts for files, and what is told on standard output after them.
pub(crate) struct Output<'a> {
    pub(crate) written: Option<Written<'a>>,
    pub(crate) told: Text,
}

/// The texts of a domain and of a problem for the files of these names, in the order in which they are put.
pub(crate) struct Written<'a> {
    pub(crate) od: &'a str,
    pub(crate) op: &'a str,
    pub(crate) texts: Texts,
}

/// What is told of a made problem and of its plan.
#[derive(Clone, Copy)]
pub(crate) struct Counts {
    pub(crate) packages: u32,
    pub(crate) actions: u128,
    pub(crate) bound: u32,
    pub(crate) width: u32,
    pub(crate) steps: u32,
}

/// How many tasks, methods and actions are kept.
#[derive(Clone, Copy)]
pub(crate) struct KeptCounts {
    pub(crate) tasks: usize,
    pub(crate) methods: usize,
    pub(crate) actions: usize,
}

impl Drop for Output<'_> {
    fn drop(self) {
        let Output {
            written: _,
            told: _,
        } = self;
    }
}

impl Drop for Written<'_> {
    fn drop(self) {
        let Written {
            od: _,
            op: _,
            texts: _,
        } = self;
    }
}

/// The line of a number of slots.
pub(crate) fn slots_told<'a>(alloc: Global, slots: u32) -> Result<Text, Refusal<'a>>
    ensures line { IfOk result (λ text. text ≡ slots_line slots) }
    ensures refused { IfErr result IsWant }
{
    let mut buffer = Buffer::new();
    made(line_of(alloc, b"slots ", buffer.format(slots).as_bytes()))
}

/// The line of a bound.
pub(crate) fn bound_told<'a>(alloc: Global, bound: u128) -> Result<Text, Refusal<'a>>
    ensures line { IfOk result (λ text. text ≡ bound_line bound) }
    ensures refused { IfErr result IsWant }
{
    let mut buffer = Buffer::new();
    made(line_of(alloc, buffer.format(bound).as_bytes(), b""))
}

/// The line of a list that is a plan.
pub(crate) fn valid_told<'a>(alloc: Global) -> Result<Text, Refusal<'a>>
    ensures line { IfOk result (λ text. text ≡ valid_line) }
    ensures refused { IfErr result IsWant }
{
    made(line_of(alloc, b"valid", b""))
}

/// The lines of a made problem.
pub(crate) fn summary_told<'a>(alloc: Global, counts: Counts) -> Result<Text, Refusal<'a>>
    ensures lines { IfOk result (λ text. text ≡ summary_of counts) }
    ensures short { IfOk result (λ text. length text ≤ longest_output) }
    ensures refused { IfErr result IsWant }
{
    made(summary_of(alloc, &counts))
}

fn summary_of(alloc: Global, counts: &Counts) -> Result<Text, Memory>
    ensures { IfOk result (λ text. text ≡ summary_of counts.now) }
{
    let mut text = Text::new(alloc);
    push_line(&mut text, b"packages ", counts.packages as u128)?;
    push_line(&mut text, b"actions ", counts.actions)?;
    push_line(&mut text, b"bound ", counts.bound as u128)?;
    push_line(&mut text, b"width ", counts.width as u128)?;
    push_line(&mut text, b"steps ", counts.steps as u128)?;
    Ok(text)
}

/// Puts a line with a number at the end.
fn push_line(text: &mut Text, word: &[u8], number: u128) -> Result<(), Memory>
    ensures { OnOk result (text.new ≡ text.old ++ count_line word.now number) }
{
    let mut buffer = Buffer::new();
    text.push_all(word)?;
    text.push_all(buffer.format(number).as_bytes())?;
    text.push_all(b"\n")
}

/// The line of what is kept.
pub(crate) fn kept_told<'a>(alloc: Global, counts: KeptCounts) -> Result<Text, Refusal<'a>>
    ensures line { IfOk result (λ text.
        text ≡ kept_line counts.tasks counts.methods counts.actions) }
    ensures refused { IfErr result IsWant }
{
    made(kept_line_of(alloc, &counts))
}

fn kept_line_of(alloc: Global, counts: &KeptCounts) -> Result<Text, Memory>
    ensures { IfOk result (λ text.
        text ≡ kept_line counts.now.tasks counts.now.methods counts.now.actions) }
{
    let mut text = Text::new(alloc);
    push_count(&mut text, b"tasks ", counts.tasks)?;
    push_count(&mut text, b" methods ", counts.methods)?;
    push_count(&mut text, b" actions ", counts.actions)?;
    text.push_all(b"\n")?;
    Ok(text)
}

/// Puts a word and a number at the end.
fn push_count(text: &mut Text, word: &[u8], count: usize) -> Result<(), Memory>
    ensures { OnOk result (text.new ≡ text.old ++ word.now ++ decimal count) }
{
    let mut buffer = Buffer::new();
    text.push_all(word)?;
    text.push_all(buffer.format(count).as_bytes())
}

fn line_of(alloc: Global, first: &[u8], second: &[u8]) -> Result<Text, Memory>
    ensures { IfOk result (λ text. text ≡ first.now ++ second.now ++ codes "\n") }
{
    let mut text = Text::from_slice(alloc, first)?;
    text.push_all(second)?;
    text.push_all(b"\n")?;
    Ok(text)
}

fn made<'a>(text: Result<Text, Memory>) -> Result<Text, Refusal<'a>>
    ensures text { IfOk result (λ text'. text ≡ Ok text') }
    ensures refused { IfErr result IsWant }
{
    match text {
        Ok(text) => Ok(text),
        Err(Memory) => Err(Refusal::Failure(Failure::Memory)),
    }
}
