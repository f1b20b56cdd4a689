ghost use Rattle.std.specs.Prelude.{IfOk};
ghost use Rattle.plan_model.specs.Parts.{AreListed};
ghost use Rattle.plan_texts.specs.SoundProblem.{IsSoundProblem};
ghost use Rattle.plan_model.specs.plan_meaning.Laws.{AreOrdered};
ghost use Rattle.problem_texts.specs.ArePrinted.{IsCompiledProblem};

use crate::rows::{ROWS, Row};
use bound_calc::method_precs::compile;
use htn_base::{Memory, Text};
use outside_io::{DiskFiles, Files, GetError};
use pddl_printer::{print_domain, print_problem};
use plan_model::{Checks, Compiled, Hddl, Pddl, Slots, Style};
use problem_texts::{Printed, Sizes, Texts, sizes, texts_of};
use slot_encoder::encode;
use std::alloc::{AllocError, Global};
use std::io::{self, Write};
use text_forms::sexpr_text::ReadError;
use text_values::hddl_of;

/// More bytes than a text of `data/` has.
const LIMIT: u64 = 65536;

/// More bytes than a printed text of a row has.
const MOST_PRINTED: u64 = 65536;

/// The most bytes that are read.
const MOST_BYTES: usize = 16_777_216;

/// Why a row isn't printed.
#[derive(Debug, Drop)]
pub enum Failure {
    /// A file was not read.
    File,
    /// The texts have a fault.
    Form,
    /// The two ways to print don't give the same texts, or their lengths are not those that are said.
    Difference,
    /// A printed text is too long.
    Length,
    Memory,
    /// Standard output took no more.
    Output,
}

impl From<Memory> for Failure {
    fn from(_memory: Memory) -> Failure {
        Failure::Memory
    }
}

impl From<AllocError> for Failure {
    fn from(_error: AllocError) -> Failure {
        Failure::Memory
    }
}

impl From<GetError> for Failure {
    fn from(error: GetError) -> Failure {
        match error {
            GetError::Failed => Failure::File,
            GetError::Memory => Failure::Memory,
        }
    }
}

impl From<io::Error> for Failure {
    fn from(_error: io::Error) -> Failure {
        Failure::Output
    }
}

/// The two HDDL texts of a row.
#[derive(Drop)]
pub struct Source {
    domain: Vec<u8>,
    problem: Vec<u8>,
}

/// Prints each row, in both styles and in its modes.
pub fn print_all(rt: &HostRuntime, alloc: Global, files: &mut DiskFiles) -> Result<(), Failure> {
    for row in ROWS {
        let source = source_of(alloc, files, row.name, row.name)?;
        let told = print_styles(rt, alloc, row, &source);
        drop(source);
        told?;
    }
    Ok(())
}

/// The texts of a domain and a problem, by their names.
pub fn source_of(
    alloc: Global,
    files: &mut DiskFiles,
    domain: &str,
    problem: &str,
) -> Result<Source, Failure> {
    let domain = text_of(alloc, files, format!(in alloc; "{domain}.d.hddl")?)?;
    let problem = text_of(alloc, files, format!(in alloc; "{problem}.p.hddl")?)?;
    Ok(Source { domain, problem })
}

fn text_of(alloc: Global, files: &mut DiskFiles, name: String) -> Result<Vec<u8>, GetError> {
    let text = files.get(alloc, name.as_str(), LIMIT);
    drop(name);
    text
}

fn print_styles(
    rt: &HostRuntime,
    alloc: Global,
    row: &Row,
    source: &Source,
) -> Result<(), Failure> {
    for style in &[Style::Adl, Style::Flat] {
        for checks in row.modes {
            let printed = printed(alloc, source, row.slots, *style, *checks)?;
            let told = print_texts(rt, row, *style, *checks, &printed);
            drop(printed);
            told?;
        }
    }
    Ok(())
}

/// The two texts, as the program prints them.
fn printed(
    alloc: Global,
    source: &Source,
    slots: u32,
    style: Style,
    checks: Checks,
) -> Result<Texts, Failure> {
    let compiled = compiled_source(alloc, source, checks)?;
    let texts = texts_compared(alloc, &compiled, slots, style);
    drop(compiled);
    texts
}

/// The two texts, which are the same as those that are printed of the printed problem's value. The domain's length is told where the
/// text is too long.
fn texts_compared(
    alloc: Global,
    compiled: &Compiled,
    slots: u32,
    style: Style,
) -> Result<Texts, Failure>
    requires listed { AreListed compiled.now.hddl.types }
    requires compiled { IsCompiledProblem compiled.now }
{
    let texts = texts_as_long(alloc, compiled, slots, style)?;
    match are_right(alloc, compiled, slots, style, &texts) {
        Ok(true) => Ok(texts),
        Ok(false) => {
            drop(texts);
            Err(Failure::Difference)
        }
        Err(Memory) => {
            drop(texts);
            Err(Failure::Memory)
        }
    }
}

fn are_right(
    alloc: Global,
    compiled: &Compiled,
    slots: u32,
    style: Style,
    texts: &Texts,
) -> Result<bool, Memory>
    requires listed { AreListed compiled.now.hddl.types }
    requires compiled { IsCompiledProblem compiled.now }
{
    if is_told(alloc, compiled, slots, style, texts.domain.len() as u64)? {
        let whole = texts_of_value(alloc, compiled, slots, style)?;
        let same = are_same(texts, &whole);
        drop(whole);
        Ok(same)
    } else {
        Ok(false)
    }
}

/// The two texts, which are as long as is said of them.
fn texts_as_long(
    alloc: Global,
    compiled: &Compiled,
    slots: u32,
    style: Style,
) -> Result<Texts, Failure>
    requires listed { AreListed compiled.now.hddl.types }
    requires compiled { IsCompiledProblem compiled.now }
{
    let sizes = sizes(alloc, compiled, slots, &Slots::Any, &style)?;
    match texts_of(alloc, compiled, slots, &Slots::Any, &style, MOST_PRINTED)? {
        Printed::Whole(texts) => {
            if are_as_long(&texts, &sizes) {
                Ok(texts)
            } else {
                drop(texts);
                Err(Failure::Difference)
            }
        }
        Printed::TooLong(_) => Err(Failure::Length),
    }
}

/// Whether the length of the domain text is told where the limit is one byte less.
fn is_told(
    alloc: Global,
    compiled: &Compiled,
    slots: u32,
    style: Style,
    length: u64,
) -> Result<bool, Memory>
    requires listed { AreListed compiled.now.hddl.types }
    requires compiled { IsCompiledProblem compiled.now }
{
    match texts_of(
        alloc,
        compiled,
        slots,
        &Slots::Any,
        &style,
        length.saturating_sub(1),
    )? {
        Printed::Whole(texts) => {
            drop(texts);
            Ok(false)
        }
        Printed::TooLong(told) => Ok(told == length),
    }
}

fn are_as_long(texts: &Texts, sizes: &Sizes) -> bool {
    sizes.domain == texts.domain.len() as u64 && sizes.problem == texts.problem.len() as u64
}

/// The compiled problem of two texts.
pub fn compiled_source(alloc: Global, source: &Source, checks: Checks) -> Result<Compiled, Failure>
    ensures listed { IfOk result (λ c. AreListed c.hddl.types) }
    ensures compiled { IfOk result IsCompiledProblem }
{
    let problem = problem_of(alloc, source)?;
    Ok(compile(alloc, problem, &checks)?)
}

fn problem_of(alloc: Global, source: &Source) -> Result<Hddl, Failure>
    ensures sound { IfOk result IsSoundProblem }
    ensures ordered { IfOk result AreOrdered }
{
    let domain = source.domain.as_slice();
    let problem = source.problem.as_slice();
    if domain.len() > MOST_BYTES || problem.len() > MOST_BYTES {
        return Err(Failure::Form);
    }
    match hddl_of(alloc, domain, problem) {
        Ok(value) => Ok(value),
        Err(ReadError::Bad(_)) => Err(Failure::Form),
        Err(ReadError::Memory) => Err(Failure::Memory),
    }
}

/// The two texts of the printed problem's value.
fn texts_of_value(
    alloc: Global,
    compiled: &Compiled,
    slots: u32,
    style: Style,
) -> Result<Texts, Memory>
    requires listed { AreListed compiled.now.hddl.types }
{
    let value = encode(alloc, compiled, slots, &style)?;
    let texts = value_texts(alloc, &value);
    drop(value);
    texts
}

fn value_texts(alloc: Global, value: &Pddl) -> Result<Texts, Memory> {
    let domain = domain_text(alloc, value)?;
    match problem_text(alloc, value) {
        Ok(problem) => Ok(Texts { domain, problem }),
        Err(Memory) => {
            drop(domain);
            Err(Memory)
        }
    }
}

fn domain_text(alloc: Global, value: &Pddl) -> Result<Text, Memory> {
    let mut text = Text::new(alloc);
    print_domain(value, &mut text)?;
    Ok(text)
}

fn problem_text(alloc: Global, value: &Pddl) -> Result<Text, Memory> {
    let mut text = Text::new(alloc);
    print_problem(value, &mut text)?;
    Ok(text)
}

fn are_same(one: &Texts, other: &Texts) -> bool {
    one.domain.as_slice() == other.domain.as_slice()
        && one.problem.as_slice() == other.problem.as_slice()
}

fn print_texts(
    rt: &HostRuntime,
    row: &Row,
    style: Style,
    checks: Checks,
    printed: &Texts,
) -> Result<(), Failure> {
    print_text(rt, row, style, checks, "od", &printed.domain)?;
    print_text(rt, row, style, checks, "op", &printed.problem)
}

/// A line with the row, and the text.
fn print_text(
    rt: &HostRuntime,
    row: &Row,
    style: Style,
    checks: Checks,
    kind: &str,
    text: &Text,
) -> Result<(), Failure> {
    let name = row.name;
    let slots = row.slots;
    let style = style_word(style);
    let checks = checks_word(checks);
    println!(rt; "== {name} {slots}-{style}-{checks}.{kind}.pddl")?;
    rt.stdout().write_all(text.as_slice())?;
    Ok(())
}

fn style_word(style: Style) -> &'static str {
    match style {
        Style::Adl => "adl",
        Style::Flat => "flat",
    }
}

fn checks_word(checks: Checks) -> &'static str {
    match checks {
        Checks::Leaf => "leaf",
        Checks::AtOnce => "atonce",
    }
}
