ghost use Rattle.std.specs.Prelude.{◌≤◌, ◌+◌, ◌∷◌, [], length, IfSome, IfOk, IfErr};
ghost use Rattle.htn_base.specs.Limits.{longest_input, longest_output, most_lines, most_slots};
ghost use Rattle.outside_io.specs.Seen.{Seen};
ghost use Rattle.command_words.specs.Bounds.{IsNumeral};
ghost use Rattle.command_words.specs.Words.{encode_of, to_encode};
ghost use Rattle.hplan_text.specs.Printable.{IsPrintableHPlan, IsSoundHPlan};
ghost use Rattle.plan_texts.specs.SoundlyCompiled.{IsSoundlyCompiled};
ghost use Rattle.htn_cli.specs.Answer.{gives, told_alone};
ghost use Rattle.htn_cli.specs.Calling.{PassesInputs, StopsInputs};
ghost use Rattle.htn_cli.specs.EncodeStops.{AreStepsFor, AreToldFor, StopsEncoding, StopsSteps};
ghost use Rattle.htn_cli.specs.Encoding.{GivesSteps};
ghost use Rattle.htn_cli.specs.Made.{GivesOutput, output_of};
ghost use Rattle.htn_cli.specs.PrintedForms.{IsOrderedFor};
ghost use Rattle.htn_cli.specs.SpelledForms.{IsStepTextAs};
ghost use Rattle.htn_cli.specs.Stops.{IsGiven, StopsOutput, StopsTexts};

use crate::faults::{Place, refusal_for};
use crate::output::Output;
use crate::problem::{compiled_from, ordered_for};
use crate::reading::{read, read_two};
use crate::refusal::{Failure, Finding, Limit, Refusal};
use crate::slots::given_slots;
use command_words::{Encoding, PrintedForm};
use hplan_text::HPlan;
use htn_base::limits::{LONGEST_OUTPUT, MOST_LINES};
use htn_base::{Memory, Text};
use outside_io::Files;
use plan_model::{Compiled, Slots};
use std::alloc::Global;
use step_texts::{StepText, stack_text, step_text};
use text_forms::sexpr_text::ReadError;

/// The number of the plan's file among the three that are read.
const HPLAN_FILE: u8 = 2;

/// What is told of the latest schedule of a hierarchical plan.
pub(crate) fn encode<'a, F: Files>(
    alloc: Global,
    asked: &Encoding<'a>,
    files: &mut F,
) -> Result<Output<'a>, Refusal<'a>>
    requires numeral { IfSome (encode_of asked.now).numeral IsNumeral }
    ensures given { IfOk result (Seen F.state
        (GivesOutput (to_encode (encode_of asked.now))) files.old files.new) }
    ensures refused { IfErr result (Seen F.state
        (StopsOutput (to_encode (encode_of asked.now))) files.old files.new) }
    ensures passed { IfOk result (λ made. Seen F.passed (PassesInputs (to_encode (encode_of asked.now)))
        files.old files.new (gives (output_of made))) }
    ensures stopped { IfErr result (Seen F.passed
        (StopsInputs (to_encode (encode_of asked.now))) files.old files.new) }
{
    let given = given_slots(asked.numeral, Slots::Any)?;
    let sources = read_two(alloc, files, asked.d, asked.p)?;
    let hplan = read(alloc, files, asked.hplan)?;
    let told = encoded(
        alloc,
        asked,
        given,
        sources.domain.as_slice(),
        sources.problem.as_slice(),
        hplan.as_slice(),
    );
    drop(sources);
    drop(hplan);
    let told = told?;
    Ok(Output {
        written: None,
        told,
    })
}

/// The text of the steps of the plan that a text spells, over the problem of two others.
fn encoded<'a>(
    alloc: Global,
    asked: &Encoding<'a>,
    given: Option<u32>,
    domain: &[u8],
    problem: &[u8],
    hplan: &[u8],
) -> Result<Text, Refusal<'a>>
    requires domain_short { length domain.now ≤ longest_input }
    requires problem_short { length problem.now ≤ longest_input }
    requires hplan_short { length hplan.now ≤ longest_input }
    requires given { IsGiven most_slots (encode_of asked.now).numeral given }
    ensures told { IfOk result (λ text. GivesSteps
        (encode_of asked.now) domain.now problem.now hplan.now (told_alone text)) }
    ensures short { IfOk result (λ text. length text ≤ longest_output) }
    ensures refused { IfErr result (StopsTexts
        (to_encode (encode_of asked.now)) (domain.now ∷ problem.now ∷ hplan.now ∷ [])) }
{
    let compiled = compiled_from(alloc, domain, problem, &asked.checks, asked.d, asked.p)?;
    let told = told_of(alloc, asked, given, &compiled, hplan);
    drop(compiled);
    told
}

/// The text of the steps of the plan that a text spells.
fn told_of<'a>(
    alloc: Global,
    asked: &Encoding<'a>,
    given: Option<u32>,
    compiled: &Compiled,
    hplan: &[u8],
) -> Result<Text, Refusal<'a>>
    requires soundly { IsSoundlyCompiled compiled.now }
    requires given { IfSome given (λ n. n ≤ most_slots) }
    requires hplan_short { length hplan.now ≤ longest_input }
    ensures told { IfOk result (AreToldFor asked.now.form compiled.now given hplan.now) }
    ensures refused { IfErr result (StopsEncoding asked.now.form compiled.now given
        (asked.now.d.now ∷ asked.now.p.now ∷ asked.now.hplan.now ∷ []) hplan.now) }
{
    match hplan_text::read(alloc, hplan, HPLAN_FILE) {
        Ok(plan) => {
            let told = text_for(alloc, asked.form, given, compiled, &plan);
            drop(plan);
            told
        }
        Err(ReadError::Bad(fault)) => {
            let place = Place {
                name: asked.hplan,
                at: fault.at,
            };
            Err(refusal_for(place, fault.code))
        }
        Err(ReadError::Memory) => Err(Refusal::Failure(Failure::Memory)),
    }
}

/// The text of a plan's steps in a form, with the given number of slots or cells, or else as many as its latest schedule is wide.
fn text_for<'a>(
    alloc: Global,
    form: PrintedForm,
    given: Option<u32>,
    compiled: &Compiled,
    plan: &HPlan,
) -> Result<Text, Refusal<'a>>
    requires soundly { IsSoundlyCompiled compiled.now }
    requires printable { IsPrintableHPlan plan.now }
    requires sound { IsSoundHPlan plan.now }
    requires given { IfSome given (λ n. n ≤ most_slots) }
    ensures told { IfOk result (AreStepsFor form compiled.now given plan.now) }
    ensures refused { IfErr result (StopsSteps form compiled.now given plan.now) }
{
    let lines = plan.primitives.len() as u128 + plan.nodes.len() as u128;
    if lines > MOST_LINES as u128 {
        return Err(Refusal::Limit(Limit::Lines(lines)));
    }
    ordered_for(alloc, compiled, form)?;
    match step_text_as(alloc, form, given, compiled, plan) {
        Ok(StepText::Whole(text)) => Ok(text),
        Ok(StepText::TooLong(size)) => Err(Refusal::Limit(Limit::Output(size))),
        Ok(StepText::NoMatch(id)) => Err(Refusal::Finding(Finding::NoMatch(id))),
        Ok(StepText::NotExecutable(id)) => Err(Refusal::Finding(Finding::NotExecutable(id))),
        Ok(StepText::GoalFalse) => Err(Refusal::Finding(Finding::GoalFalse)),
        Ok(StepText::NoPlacement) => Err(Refusal::Finding(Finding::NoPlacement)),
        Ok(StepText::NeedsBound(width)) => Err(Refusal::Finding(Finding::NeedsBound(width))),
        Ok(StepText::TooWide(width)) => Err(Refusal::Limit(Limit::Slots(width as u128))),
        Err(Memory) => Err(Refusal::Failure(Failure::Memory)),
    }
}

/// This text, or what the plan comes to in its place.
fn step_text_as(
    alloc: Global,
    form: PrintedForm,
    given: Option<u32>,
    compiled: &Compiled,
    plan: &HPlan,
) -> Result<StepText, Memory>
    requires soundly { IsSoundlyCompiled compiled.now }
    requires ordered { IsOrderedFor form compiled.now }
    requires printable { IsPrintableHPlan plan.now }
    requires sound { IsSoundHPlan plan.now }
    requires few { length plan.now.primitives + length plan.now.nodes ≤ most_lines }
    requires given { IfSome given (λ n. n ≤ most_slots) }
    ensures text { IfOk result (IsStepTextAs form compiled.now plan.now given longest_output) }
{
    match form {
        PrintedForm::Slots => step_text(alloc, compiled, plan, given, LONGEST_OUTPUT),
        PrintedForm::Stack => stack_text(alloc, compiled, plan, given, LONGEST_OUTPUT),
    }
}
