ghost use Rattle.std.specs.Prelude.{◌≤◌, ◌∷◌, [], length, IfSome, IfOk, IfErr};
ghost use Rattle.htn_base.specs.Limits.{longest_input, longest_output, most_slots, most_steps};
ghost use Rattle.outside_io.specs.Seen.{Seen};
ghost use Rattle.command_words.specs.Bounds.{IsNumeral};
ghost use Rattle.command_words.specs.Words.{decode_of, to_decode};
ghost use Rattle.plan_texts.specs.SoundlyCompiled.{IsSoundlyCompiled};
ghost use Rattle.htn_cli.specs.Answer.{gives, told_alone};
ghost use Rattle.htn_cli.specs.Calling.{PassesInputs, StopsInputs};
ghost use Rattle.htn_cli.specs.Decoding.{GivesTree};
ghost use Rattle.htn_cli.specs.Made.{GivesOutput, output_of};
ghost use Rattle.htn_cli.specs.PrintedForms.{IsOrderedFor};
ghost use Rattle.htn_cli.specs.ShownForms.{IsTreeTextAs};
ghost use Rattle.htn_cli.specs.Stops.{HaveShortText, IsGiven, IsInRange, IsToldFor, IsTreeFor};
ghost use Rattle.htn_cli.specs.Stops.{StopsOutput, StopsTelling, StopsTexts, StopsTree, StopsTreeWith};

use crate::faults::{Place, refusal_for};
use crate::output::Output;
use crate::problem::{compiled_from, ordered_for};
use crate::reading::{read, read_two};
use crate::refusal::{Failure, Finding, Limit, Refusal};
use crate::slots::{given_slots, slots_for};
use command_words::{Decoding, PrintedForm};
use htn_base::limits::{LONGEST_OUTPUT, MOST_STEPS};
use htn_base::{Memory, Text};
use outside_io::Files;
use plan_model::{Compiled, Slots};
use plan_text::Plan;
use std::alloc::Global;
use text_forms::sexpr_text::ReadError;
use tree_texts::{TreeText, stack_text, tree_text};

/// The number of the plan's file among the three that are read.
const PLAN_FILE: u8 = 2;

/// What is told of the tree that a plan spells.
pub(crate) fn decode<'a, F: Files>(
    alloc: Global,
    asked: &Decoding<'a>,
    files: &mut F,
) -> Result<Output<'a>, Refusal<'a>>
    requires numeral { IfSome (decode_of asked.now).numeral IsNumeral }
    ensures given { IfOk result (Seen F.state
        (GivesOutput (to_decode (decode_of asked.now))) files.old files.new) }
    ensures refused { IfErr result (Seen F.state
        (StopsOutput (to_decode (decode_of asked.now))) files.old files.new) }
    ensures passed { IfOk result (λ made. Seen F.passed (PassesInputs (to_decode (decode_of asked.now)))
        files.old files.new (gives (output_of made))) }
    ensures stopped { IfErr result (Seen F.passed
        (StopsInputs (to_decode (decode_of asked.now))) files.old files.new) }
{
    let given = given_slots(asked.numeral, Slots::Any)?;
    let sources = read_two(alloc, files, asked.d, asked.p)?;
    let plan = read(alloc, files, asked.plan)?;
    let told = decoded(
        alloc,
        asked,
        given,
        sources.domain.as_slice(),
        sources.problem.as_slice(),
        plan.as_slice(),
    );
    drop(sources);
    drop(plan);
    let told = told?;
    Ok(Output {
        written: None,
        told,
    })
}

/// The text of the tree that the plan of a text spells, over the problem of two others.
fn decoded<'a>(
    alloc: Global,
    asked: &Decoding<'a>,
    given: Option<u32>,
    domain: &[u8],
    problem: &[u8],
    plan: &[u8],
) -> Result<Text, Refusal<'a>>
    requires domain_short { length domain.now ≤ longest_input }
    requires problem_short { length problem.now ≤ longest_input }
    requires plan_short { length plan.now ≤ longest_input }
    requires given { IsGiven most_slots (decode_of asked.now).numeral given }
    ensures told { IfOk result (λ text. GivesTree
        (decode_of asked.now) domain.now problem.now plan.now (told_alone text)) }
    ensures short { IfOk result (λ text. length text ≤ longest_output) }
    ensures refused { IfErr result (StopsTexts
        (to_decode (decode_of asked.now)) (domain.now ∷ problem.now ∷ plan.now ∷ [])) }
{
    let compiled = compiled_from(alloc, domain, problem, &asked.checks, asked.d, asked.p)?;
    let told = told_of(alloc, asked, given, &compiled, plan);
    drop(compiled);
    told
}

/// The text of the tree that the plan of a text spells.
fn told_of<'a>(
    alloc: Global,
    asked: &Decoding<'a>,
    given: Option<u32>,
    compiled: &Compiled,
    plan: &[u8],
) -> Result<Text, Refusal<'a>>
    requires soundly { IsSoundlyCompiled compiled.now }
    requires given { IfSome given IsInRange }
    requires plan_short { length plan.now ≤ longest_input }
    ensures told { IfOk result (IsToldFor asked.now.form asked.now.level compiled.now given plan.now) }
    ensures refused { IfErr result (StopsTelling asked.now.form asked.now.level compiled.now given
        (asked.now.d.now ∷ asked.now.p.now ∷ asked.now.plan.now ∷ []) plan.now) }
{
    match Plan::new(alloc, plan, PLAN_FILE) {
        Ok(plan) => {
            let told = text_for(alloc, asked, given, compiled, &plan);
            drop(plan);
            told
        }
        Err(ReadError::Bad(fault)) => {
            let place = Place {
                name: asked.plan,
                at: fault.at,
            };
            Err(refusal_for(place, fault.code))
        }
        Err(ReadError::Memory) => Err(Refusal::Failure(Failure::Memory)),
    }
}

/// The text of the tree that a plan spells with the given number of slots or cells, or else as many as the bound.
fn text_for<'a>(
    alloc: Global,
    asked: &Decoding<'a>,
    given: Option<u32>,
    compiled: &Compiled,
    plan: &Plan<'_>,
) -> Result<Text, Refusal<'a>>
    requires soundly { IsSoundlyCompiled compiled.now }
    requires given { IfSome given IsInRange }
    ensures told { IfOk result (IsTreeFor asked.now.form asked.now.level compiled.now given plan.now) }
    ensures refused { IfErr result (StopsTree asked.now.form asked.now.level compiled.now given plan.now) }
{
    if plan.len() > MOST_STEPS as usize {
        return Err(Refusal::Limit(Limit::Steps(plan.len())));
    }
    ordered_for(alloc, compiled, asked.form)?;
    let slots = slots_for(alloc, compiled, given, asked.level, Slots::Any)?;
    text_with(alloc, asked.form, slots, compiled, plan)
}

/// The text of the tree that a plan spells in a form, with so many slots or cells.
fn text_with<'a>(
    alloc: Global,
    form: PrintedForm,
    slots: u32,
    compiled: &Compiled,
    plan: &Plan<'_>,
) -> Result<Text, Refusal<'a>>
    requires soundly { IsSoundlyCompiled compiled.now }
    requires ordered { IsOrderedFor form compiled.now }
    requires range { IsInRange slots }
    requires few { length plan.now ≤ most_steps }
    ensures told { IfOk result (HaveShortText form compiled.now slots plan.now) }
    ensures refused { IfErr result (StopsTreeWith form compiled.now slots plan.now) }
{
    match tree_text_as(alloc, form, slots, compiled, plan) {
        Ok(TreeText::Whole(text)) => Ok(text),
        Ok(TreeText::TooLong(size)) => Err(Refusal::Limit(Limit::Output(size))),
        Ok(TreeText::Fails { step, why }) => {
            Err(Refusal::Finding(Finding::SpellsNoSolution(step, why)))
        }
        Err(Memory) => Err(Refusal::Failure(Failure::Memory)),
    }
}

/// This text, or what the plan comes to in its place.
fn tree_text_as(
    alloc: Global,
    form: PrintedForm,
    slots: u32,
    compiled: &Compiled,
    plan: &Plan<'_>,
) -> Result<TreeText, Memory>
    requires soundly { IsSoundlyCompiled compiled.now }
    requires ordered { IsOrderedFor form compiled.now }
    requires range { IsInRange slots }
    requires few { length plan.now ≤ most_steps }
    ensures text { IfOk result (IsTreeTextAs form compiled.now slots plan.now longest_output) }
{
    match form {
        PrintedForm::Slots => tree_text(alloc, compiled, slots, plan, LONGEST_OUTPUT),
        PrintedForm::Stack => stack_text(alloc, compiled, slots, plan, LONGEST_OUTPUT),
    }
}
