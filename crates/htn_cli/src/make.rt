ghost use Rattle.std.specs.Prelude.{◌≡◌, ◌≢◌, ◌+◌, ◌≤◌, [], length, IfOk, IfErr};
ghost use Rattle.htn_base.specs.Limits.{longest_input, longest_output, most_lines};
ghost use Rattle.command_words.specs.Bounds.{IsCount};
ghost use Rattle.command_words.specs.Words.{make_of, to_make};
ghost use Rattle.hplan_text.specs.Printable.{IsPrintableHPlan, IsSoundHPlan};
ghost use Rattle.plan_texts.specs.SoundlyCompiled.{IsSoundlyCompiled};
ghost use Rattle.made_transport.specs.Made.{IsMade};
ghost use Rattle.htn_cli.specs.Answer.{gives};
ghost use Rattle.htn_cli.specs.Answers.{IsAnswerFor};
ghost use Rattle.htn_cli.specs.Made.{AreMadeWith, NamesDiffer, manner_of, output_of};
ghost use Rattle.htn_cli.specs.Making.{GivesMake, packages, translation_for};
ghost use Rattle.htn_cli.specs.MakeStops.{HasActions, IsMadeAtBound, IsSummedUp, StopsAlone, StopsAtBound, StopsSummingUp, summary_of};
ghost use Rattle.htn_cli.specs.Stops.{StopsPrinted, StopsTexts};

use crate::building::printed;
use crate::manner::Manner;
use crate::output::{Counts, Output, Written, summary_told};
use crate::problem::compiled_from;
use crate::refusal::{Failure, Finding, Limit, Refusal};
use crate::slots::slots_for;
use command_words::{Level, Making, PrintedForm, count_of};
use hplan_text::HPlan;
use htn_base::Memory;
use made_transport::{Made, made};
use plan_model::{Checks, Compiled, Slots, Style};
use std::alloc::Global;
use step_texts::{StepCount, step_count};

/// The most slots of a made problem.
const MOST_MADE_SLOTS: u128 = 4_096;

/// Each package takes so many slots.
const SLOTS_OF_ONE: u128 = 5;

/// What is made of so many packages. It reads no file.
pub(crate) fn make<'a>(alloc: Global, asked: &Making<'a>) -> Result<Output<'a>, Refusal<'a>>
    requires count { IsCount (make_of asked.now).numeral }
    requires apart { asked.now.od.now ≢ asked.now.op.now }
    ensures given { IfOk result (λ made.
        IsAnswerFor (to_make (make_of asked.now)) [] (gives (output_of made))) }
    ensures differ { IfOk result NamesDiffer }
    ensures refused { IfErr result (StopsAlone (to_make (make_of asked.now))) }
{
    let packages = count_of(asked.numeral);
    let slots = SLOTS_OF_ONE * packages as u128;
    if slots > MOST_MADE_SLOTS {
        return Err(Refusal::Limit(Limit::Slots(slots)));
    }
    match made(alloc, packages) {
        Ok(made) => {
            let output = translated(alloc, asked, &made);
            drop(made);
            output
        }
        Err(Memory) => Err(Refusal::Failure(Failure::Memory)),
    }
}

/// What the translation of a made problem gives.
fn translated<'a>(alloc: Global, asked: &Making<'a>, made: &Made) -> Result<Output<'a>, Refusal<'a>>
    requires count { IsCount (make_of asked.now).numeral }
    requires apart { asked.now.od.now ≢ asked.now.op.now }
    requires made { IsMade (packages (make_of asked.now)) made.now }
    requires sound { IsSoundHPlan made.now.plan }
    requires printable { IsPrintableHPlan made.now.plan }
    requires few { length made.now.plan.primitives + length made.now.plan.nodes ≤ most_lines }
    requires domain_short { length made.now.domain ≤ longest_input }
    requires problem_short { length made.now.problem ≤ longest_input }
    ensures output { IfOk result (λ made. GivesMake (make_of asked.now) (output_of made)) }
    ensures short { IfOk result (λ made. length made.told ≤ longest_output) }
    ensures differ { IfOk result NamesDiffer }
    ensures refused { IfErr result (StopsTexts (to_make (make_of asked.now)) []) }
{
    let compiled = compiled_from(
        alloc,
        made.domain.as_slice(),
        made.problem.as_slice(),
        &Checks::Leaf,
        "domain",
        "problem",
    )?;
    let output = output_at_bound(alloc, asked, &compiled, &made.plan);
    drop(compiled);
    output
}

/// The texts of a compiled problem with its bound, and what is told of it and of a plan.
fn output_at_bound<'a>(
    alloc: Global,
    asked: &Making<'a>,
    compiled: &Compiled,
    plan: &HPlan,
) -> Result<Output<'a>, Refusal<'a>>
    requires count { IsCount (make_of asked.now).numeral }
    requires apart { asked.now.od.now ≢ asked.now.op.now }
    requires soundly { IsSoundlyCompiled compiled.now }
    requires sound { IsSoundHPlan plan.now }
    requires printable { IsPrintableHPlan plan.now }
    requires few { length plan.now.primitives + length plan.now.nodes ≤ most_lines }
    ensures output { IfOk result (IsMadeAtBound (make_of asked.now) compiled.now plan.now) }
    ensures short { IfOk result (λ made. length made.told ≤ longest_output) }
    ensures differ { IfOk result NamesDiffer }
    ensures refused { IfErr result (StopsAtBound (make_of asked.now) compiled.now plan.now) }
{
    let bound = slots_for(alloc, compiled, None, Level::Lifted, Slots::Any)?;
    summed_up(alloc, asked, compiled, plan, bound)
}

/// The same, with so many slots.
fn summed_up<'a>(
    alloc: Global,
    asked: &Making<'a>,
    compiled: &Compiled,
    plan: &HPlan,
    bound: u32,
) -> Result<Output<'a>, Refusal<'a>>
    requires count { IsCount (make_of asked.now).numeral }
    requires apart { asked.now.od.now ≢ asked.now.op.now }
    requires soundly { IsSoundlyCompiled compiled.now }
    requires sound { IsSoundHPlan plan.now }
    requires printable { IsPrintableHPlan plan.now }
    requires few { length plan.now.primitives + length plan.now.nodes ≤ most_lines }
    ensures output { IfOk result (IsSummedUp (make_of asked.now) compiled.now plan.now bound) }
    ensures short { IfOk result (λ made. length made.told ≤ longest_output) }
    ensures differ { IfOk result NamesDiffer }
    ensures refused { IfErr result (StopsSummingUp (make_of asked.now) compiled.now plan.now bound) }
{
    match step_count(alloc, compiled, plan) {
        Ok(StepCount::Counted { width, steps }) => {
            let counts = Counts {
                packages: count_of(asked.numeral),
                actions: actions_of(compiled),
                bound,
                width,
                steps,
            };
            output_with(alloc, asked, compiled, &counts)
        }
        Ok(StepCount::NoMatch(id)) => Err(Refusal::Finding(Finding::NoMatch(id))),
        Ok(StepCount::NotExecutable(id)) => Err(Refusal::Finding(Finding::NotExecutable(id))),
        Ok(StepCount::GoalFalse) => Err(Refusal::Finding(Finding::GoalFalse)),
        Ok(StepCount::NoPlacement) => Err(Refusal::Finding(Finding::NoPlacement)),
        Ok(StepCount::TooWide(width)) => Err(Refusal::Limit(Limit::Slots(width as u128))),
        Err(Memory) => Err(Refusal::Failure(Failure::Memory)),
    }
}

/// The texts of a compiled problem with as many slots as were counted, and the counts.
fn output_with<'a>(
    alloc: Global,
    asked: &Making<'a>,
    compiled: &Compiled,
    counts: &Counts,
) -> Result<Output<'a>, Refusal<'a>>
    requires apart { asked.now.od.now ≢ asked.now.op.now }
    requires soundly { IsSoundlyCompiled compiled.now }
    ensures written { IfOk result (λ made.
        AreMadeWith (translation_for (make_of asked.now)) compiled.now counts.now.bound made.written) }
    ensures told { IfOk result (λ made. made.told ≡ summary_of counts.now) }
    ensures short { IfOk result (λ made. length made.told ≤ longest_output) }
    ensures differ { IfOk result NamesDiffer }
    ensures refused { IfErr result (StopsPrinted compiled.now
        (manner_of (translation_for (make_of asked.now)) counts.now.bound)) }
{
    let manner = Manner {
        slots: counts.bound,
        form: PrintedForm::Slots,
        rule: Slots::Any,
        style: Style::Adl,
        checks: Checks::Leaf,
    };
    let texts = printed(alloc, compiled, &manner)?;
    match summary_told(alloc, *counts) {
        Ok(told) => Ok(Output {
            written: Some(Written {
                od: asked.od,
                op: asked.op,
                texts,
            }),
            told,
        }),
        Err(refusal) => {
            drop(texts);
            Err(refusal)
        }
    }
}

/// How many actions are printed of a compiled problem.
fn actions_of(compiled: &Compiled) -> u128
    ensures { HasActions compiled.now result }
{
    let mut checks = 0;
    for plan in compiled.methods.as_slice() {
        if plan.checked {
            checks += 1;
        }
    }
    compiled.methods.len() as u128 + checks + compiled.hddl.actions.len() as u128
}
