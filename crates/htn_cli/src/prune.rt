ghost use Rattle.std.specs.Prelude.{◌≢◌, ◌≤◌, [], ◌∷◌, length, IfOk, IfErr};
ghost use Rattle.htn_base.specs.Limits.{longest_input};
ghost use Rattle.outside_io.specs.Seen.{Seen};
ghost use Rattle.plan_texts.specs.SoundProblem.{IsSoundProblem};
ghost use Rattle.hddl_prune.specs.Pruning.{IsPruned};
ghost use Rattle.command_words.specs.Names.{AreApart, names_of};
ghost use Rattle.command_words.specs.Words.{prune_of, to_prune};
ghost use Rattle.htn_cli.specs.Answer.{gives};
ghost use Rattle.htn_cli.specs.Calling.{PassesInputs, StopsInputs};
ghost use Rattle.htn_cli.specs.Made.{GivesOutput, NamesDiffer, output_of};
ghost use Rattle.htn_cli.specs.Pruning.{GivesPrune};
ghost use Rattle.htn_cli.specs.PruneStops.{AreTextsOf, IsMadeOf, IsMadePruned, StopsKeeping, StopsMadePruned, StopsText};
ghost use Rattle.htn_cli.specs.Stops.{StopsOutput, StopsTexts};
ghost use Rattle.htn_cli.specs.Texts.{texts_of};

use crate::output::{KeptCounts, Output, Written, kept_told};
use crate::problem::problem_from;
use crate::reading::read_two;
use crate::refusal::{Failure, Finding, Limit, Refusal};
use command_words::{Named, Pruning};
use hddl_prune::{PruneError, prune};
use hddl_texts::{Printed, hddl_texts};
use htn_base::Memory;
use htn_base::limits::LONGEST_OUTPUT;
use outside_io::Files;
use plan_model::Hddl;
use problem_texts::Texts;
use std::alloc::Global;

/// What a pruning gives.
pub(crate) fn pruning<'a, F: Files>(
    alloc: Global,
    asked: &Pruning<'a>,
    files: &mut F,
) -> Result<Output<'a>, Refusal<'a>>
    requires apart { AreApart (prune_of asked.now).names }
    ensures given { IfOk result (Seen F.state
        (GivesOutput (to_prune (prune_of asked.now))) files.old files.new) }
    ensures refused { IfErr result (Seen F.state
        (StopsOutput (to_prune (prune_of asked.now))) files.old files.new) }
    ensures passed { IfOk result (λ made. Seen F.passed (PassesInputs (to_prune (prune_of asked.now)))
        files.old files.new (gives (output_of made))) }
    ensures stopped { IfErr result (Seen F.passed
        (StopsInputs (to_prune (prune_of asked.now))) files.old files.new) }
{
    let sources = read_two(alloc, files, asked.names.d, asked.names.p)?;
    let output = pruned(
        alloc,
        asked,
        sources.domain.as_slice(),
        sources.problem.as_slice(),
    );
    drop(sources);
    output
}

/// What the pruning of two texts gives.
fn pruned<'a>(
    alloc: Global,
    asked: &Pruning<'a>,
    domain: &[u8],
    problem: &[u8],
) -> Result<Output<'a>, Refusal<'a>>
    requires domain_short { length domain.now ≤ longest_input }
    requires problem_short { length problem.now ≤ longest_input }
    requires apart { asked.now.names.od.now ≢ asked.now.names.op.now }
    ensures output { IfOk result (λ made. GivesPrune
        (prune_of asked.now) domain.now problem.now (output_of made)) }
    ensures differ { IfOk result NamesDiffer }
    ensures refused { IfErr result (StopsTexts
        (to_prune (prune_of asked.now)) (domain.now ∷ problem.now ∷ [])) }
{
    let Named { d, p, .. } = asked.names;
    let source = problem_from(alloc, domain, problem, d, p)?;
    let output = output_for(alloc, &source, &asked.names);
    drop(source);
    output
}

/// What the pruning of a problem gives for the files of these names.
fn output_for<'a>(
    alloc: Global,
    source: &Hddl,
    names: &Named<'a>,
) -> Result<Output<'a>, Refusal<'a>>
    requires sound { IsSoundProblem source.now }
    requires apart { names.now.od.now ≢ names.now.op.now }
    ensures output { IfOk result (IsMadePruned (names_of names.now) source.now) }
    ensures differ { IfOk result NamesDiffer }
    ensures refused { IfErr result (StopsMadePruned source.now) }
{
    let value = kept_of(alloc, source)?;
    output_with(alloc, value, names)
}

/// The problem without what no solution uses.
fn kept_of<'a>(alloc: Global, source: &Hddl) -> Result<Hddl, Refusal<'a>>
    requires sound { IsSoundProblem source.now }
    ensures pruned { IfOk result (IsPruned source.now) }
    ensures refused { IfErr result (StopsKeeping source.now) }
{
    match prune(alloc, source) {
        Ok(value) => Ok(value),
        Err(PruneError::NoSolution) => Err(Refusal::Finding(Finding::NoSolution)),
        Err(PruneError::Memory) => Err(Refusal::Failure(Failure::Memory)),
    }
}

/// The texts of what is kept, and how much it is.
fn output_with<'a>(alloc: Global, value: Hddl, names: &Named<'a>) -> Result<Output<'a>, Refusal<'a>>
    requires apart { names.now.od.now ≢ names.now.op.now }
    ensures output { IfOk result (IsMadeOf (names_of names.now) value) }
    ensures differ { IfOk result NamesDiffer }
    ensures refused { IfErr result (StopsText value) }
{
    let counts = KeptCounts {
        tasks: value.tasks.len(),
        methods: value.methods.len(),
        actions: value.actions.len(),
    };
    let texts = printed(alloc, value)?;
    match kept_told(alloc, counts) {
        Ok(told) => Ok(Output {
            written: Some(Written {
                od: names.od,
                op: names.op,
                texts,
            }),
            told,
        }),
        Err(refusal) => {
            drop(texts);
            Err(refusal)
        }
    }
}

/// The two HDDL texts of a problem, if neither is too long.
fn printed<'a>(alloc: Global, value: Hddl) -> Result<Texts, Refusal<'a>>
    ensures whole { IfOk result (λ texts. AreTextsOf value (texts_of texts)) }
    ensures refused { IfErr result (StopsText value) }
{
    match hddl_texts(alloc, value, LONGEST_OUTPUT) {
        Ok(Printed::Whole(texts)) => Ok(Texts {
            domain: texts.domain,
            problem: texts.problem,
        }),
        Ok(Printed::TooLong(size)) => Err(Refusal::Limit(Limit::Output(size))),
        Err(Memory) => Err(Refusal::Failure(Failure::Memory)),
    }
}
