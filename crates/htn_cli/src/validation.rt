ghost use Rattle.std.specs.Prelude.{◌≡◌, ◌<◌, ◌≤◌, [], ◌∷◌, length, slice_get, Some, OnOk, IfOk, IfErr};
ghost use Rattle.htn_base.specs.Limits.{longest_input};
ghost use Rattle.outside_io.specs.Seen.{Seen};
ghost use Rattle.command_words.specs.Words as words;
ghost use Rattle.text_values.specs.form_spellings.SoundPddl.{IsSoundClassical};
ghost use Rattle.htn_cli.specs.Answer.{gives, told_alone};
ghost use Rattle.htn_cli.specs.Lines.{valid_line};
ghost use Rattle.htn_cli.specs.Made.{GivesOutput, NamesDiffer, output_of};
ghost use Rattle.htn_cli.specs.Calling.{PassesInputs, StopsInputs};
ghost use Rattle.htn_cli.specs.Stops.{IsConfirmedFor, IsWant, StopsFor, StopsOutput, StopsPlan};
ghost use Rattle.htn_cli.specs.Validation.{AreConfirmed};

use crate::checked::Checked;
use crate::checking::check;
use crate::faults::{Place, refusal_for};
use crate::output::{Output, valid_told};
use crate::reading::{read, read_two};
use crate::refusal::{Failure, Finding, Limit, Refusal};
use command_words::Validation;
use htn_base::Fault;
use htn_base::limits::MOST_STEPS;
use outside_io::Files;
use plan_model::Pddl;
use std::alloc::Global;
use text_forms::sexpr_text::ReadError;
use text_values::pddl_of;

/// The number of the plan's file among the three that are read.
const PLAN_FILE: u8 = 2;

/// What is told of a list that is a plan.
pub(crate) fn validation<'a, F: Files>(
    alloc: Global,
    asked: &Validation<'a>,
    files: &mut F,
) -> Result<Output<'a>, Refusal<'a>>
    ensures given { IfOk result (Seen F.state
        (GivesOutput (words.to_validate (words.validation_of asked.now))) files.old files.new) }
    ensures refused { IfErr result (Seen F.state
        (StopsOutput (words.to_validate (words.validation_of asked.now))) files.old files.new) }
    ensures passed { IfOk result (λ made. Seen F.passed (PassesInputs (words.to_validate (words.validation_of asked.now)))
        files.old files.new (gives (output_of made))) }
    ensures stopped { IfErr result (Seen F.passed
        (StopsInputs (words.to_validate (words.validation_of asked.now))) files.old files.new) }
{
    let sources = read_two(alloc, files, asked.pd, asked.pp)?;
    let plan = read(alloc, files, asked.plan)?;
    let confirmed = confirm(
        alloc,
        asked,
        sources.domain.as_slice(),
        sources.problem.as_slice(),
        plan.as_slice(),
    );
    drop(sources);
    drop(plan);
    confirmed?;
    valid(alloc)
}

/// The line of a plan alone.
fn valid<'a>(alloc: Global) -> Result<Output<'a>, Refusal<'a>>
    ensures output { IfOk result (λ made. output_of made ≡ told_alone valid_line) }
    ensures differ { IfOk result NamesDiffer }
    ensures refused { IfErr result IsWant }
{
    let told = valid_told(alloc)?;
    Ok(Output {
        written: None,
        told,
    })
}

/// Whether the third text spells a plan of the two others.
fn confirm<'a>(
    alloc: Global,
    asked: &Validation<'a>,
    domain: &[u8],
    problem: &[u8],
    plan: &[u8],
) -> Result<(), Refusal<'a>>
    requires domain_short { length domain.now ≤ longest_input }
    requires problem_short { length problem.now ≤ longest_input }
    requires plan_short { length plan.now ≤ longest_input }
    ensures plan { OnOk result (AreConfirmed domain.now problem.now plan.now) }
    ensures refused { IfErr result
        (StopsPlan (asked.now.pd.now ∷ asked.now.pp.now ∷ asked.now.plan.now ∷ [])
        domain.now problem.now plan.now) }
{
    match pddl_of(alloc, domain, problem) {
        Ok(value) => {
            let confirmed = confirm_plan(alloc, asked, &value, plan);
            drop(value);
            confirmed
        }
        Err(ReadError::Bad(fault)) => Err(refusal_for(place_of(fault, asked), fault.code)),
        Err(ReadError::Memory) => Err(Refusal::Failure(Failure::Memory)),
    }
}

/// Whether a text spells a plan of the value, which two PDDL texts spell.
fn confirm_plan<'a>(
    alloc: Global,
    asked: &Validation<'a>,
    value: &Pddl,
    plan: &[u8],
) -> Result<(), Refusal<'a>>
    requires sound { IsSoundClassical value.now }
    requires plan_short { length plan.now ≤ longest_input }
    ensures plan { OnOk result (IsConfirmedFor value.now plan.now) }
    ensures refused { IfErr result
        (StopsFor (asked.now.pd.now ∷ asked.now.pp.now ∷ asked.now.plan.now ∷ [])
        value.now plan.now) }
{
    match check(alloc, value, plan, PLAN_FILE, MOST_STEPS) {
        Ok(Checked::Plan) => Ok(()),
        Ok(Checked::TooMany(count)) => Err(Refusal::Limit(Limit::Steps(count))),
        Ok(Checked::Fails { step, why }) => Err(Refusal::Finding(Finding::NotAPlan(step, why))),
        Err(ReadError::Bad(fault)) => Err(refusal_for(place_of(fault, asked), fault.code)),
        Err(ReadError::Memory) => Err(Refusal::Failure(Failure::Memory)),
    }
}

/// The place of a fault of three texts.
fn place_of<'a>(fault: Fault, asked: &Validation<'a>) -> Place<'a>
    ensures name { fault.file < 3 → slice_get
        (asked.now.pd.now ∷ asked.now.pp.now ∷ asked.now.plan.now ∷ []) fault.file
        ≡ Some result.name.now }
    ensures at { result.at ≡ fault.at }
{
    let name = match fault.file {
        0 => asked.pd,
        1 => asked.pp,
        _ => asked.plan,
    };
    Place { name, at: fault.at }
}
