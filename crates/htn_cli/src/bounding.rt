ghost use Rattle.std.specs.Prelude.{◌≤◌, ◌<◌, ◌^◌, ◌≡◌, [], ◌∷◌, length, IfOk, IfErr};
ghost use Rattle.htn_base.specs.Limits.{longest_input};
ghost use Rattle.outside_io.specs.Seen.{Seen};
ghost use Rattle.command_words.specs.Words as words;
ghost use Rattle.htn_cli.specs.Answer.{gives, told_alone};
ghost use Rattle.htn_cli.specs.Bounding.{GivesBound};
ghost use Rattle.htn_cli.specs.Lines.{bound_line};
ghost use Rattle.htn_cli.specs.Made.{GivesOutput, NamesDiffer, output_of};
ghost use Rattle.htn_cli.specs.Calling.{PassesInputs, StopsInputs};
ghost use Rattle.htn_cli.specs.Stops.{IsWant, StopsOutput, StopsTexts};

use crate::output::{Output, bound_told};
use crate::problem::{bound_of, compiled_from};
use crate::reading::read_two;
use crate::refusal::Refusal;
use command_words::Bounding;
use outside_io::Files;
use std::alloc::Global;

/// What is told of a bound.
pub(crate) fn bounding<'a, F: Files>(
    alloc: Global,
    asked: &Bounding<'a>,
    files: &mut F,
) -> Result<Output<'a>, Refusal<'a>>
    ensures given { IfOk result (Seen F.state
        (GivesOutput (words.to_bound (words.bound_of asked.now))) files.old files.new) }
    ensures refused { IfErr result (Seen F.state
        (StopsOutput (words.to_bound (words.bound_of asked.now))) files.old files.new) }
    ensures passed { IfOk result (λ made. Seen F.passed (PassesInputs (words.to_bound (words.bound_of asked.now)))
        files.old files.new (gives (output_of made))) }
    ensures stopped { IfErr result (Seen F.passed
        (StopsInputs (words.to_bound (words.bound_of asked.now))) files.old files.new) }
{
    let sources = read_two(alloc, files, asked.d, asked.p)?;
    let output = bounded(
        alloc,
        asked,
        sources.domain.as_slice(),
        sources.problem.as_slice(),
    );
    drop(sources);
    output
}

/// What is told of the bound of the problem that two texts spell.
fn bounded<'a>(
    alloc: Global,
    asked: &Bounding<'a>,
    domain: &[u8],
    problem: &[u8],
) -> Result<Output<'a>, Refusal<'a>>
    requires domain_short { length domain.now ≤ longest_input }
    requires problem_short { length problem.now ≤ longest_input }
    ensures output { IfOk result (λ made. GivesBound
        (words.bound_of asked.now) domain.now problem.now (output_of made)) }
    ensures differ { IfOk result NamesDiffer }
    ensures refused { IfErr result (StopsTexts
        (words.to_bound (words.bound_of asked.now)) (domain.now ∷ problem.now ∷ [])) }
{
    let compiled = compiled_from(alloc, domain, problem, &asked.checks, asked.d, asked.p)?;
    let bound = bound_of(alloc, &compiled, asked.level);
    drop(compiled);
    output_with(alloc, bound?)
}

/// The line of a bound alone.
fn output_with<'a>(alloc: Global, bound: u128) -> Result<Output<'a>, Refusal<'a>>
    ensures small { bound < 2 ^ 128 }
    ensures output { IfOk result (λ made. output_of made ≡ told_alone (bound_line bound)) }
    ensures differ { IfOk result NamesDiffer }
    ensures refused { IfErr result IsWant }
{
    let told = bound_told(alloc, bound)?;
    Ok(Output {
        written: None,
        told,
    })
}
