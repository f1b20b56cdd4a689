ghost use Rattle.std.specs.Prelude.{◌≢◌, ◌≤◌, [], ◌∷◌, length, IfSome, IfOk, IfErr};
ghost use Rattle.htn_base.specs.Limits.{longest_input};
ghost use Rattle.outside_io.specs.Seen.{Seen};
ghost use Rattle.command_words.specs.Names.{AreApart};
ghost use Rattle.command_words.specs.Bounds.{IsNumeral};
ghost use Rattle.command_words.specs.Words.{to_translate, translation_of};
ghost use Rattle.plan_texts.specs.SoundlyCompiled.{IsSoundlyCompiled};
ghost use Rattle.htn_cli.specs.Answer.{gives};
ghost use Rattle.htn_cli.specs.Made.{GivesOutput, IsMadeFor, IsMadeWith, NamesDiffer, StopsMadeFor, manner_of, output_of};
ghost use Rattle.htn_cli.specs.Calling.{PassesInputs, StopsInputs};
ghost use Rattle.htn_cli.specs.Requests.{most_by};
ghost use Rattle.htn_cli.specs.Stops.{IsGiven, StopsOutput, StopsPrinted, StopsTexts};
ghost use Rattle.htn_cli.specs.Translation.{GivesTranslation};

use crate::building::printed;
use crate::manner::Manner;
use crate::output::{Output, Written, slots_told};
use crate::problem::{compiled_from, ordered_for};
use crate::reading::read_two;
use crate::refusal::Refusal;
use crate::slots::{given_slots, slots_for};
use command_words::{Named, Translation};
use outside_io::Files;
use plan_model::Compiled;
use std::alloc::Global;

/// What a translation gives.
pub(crate) fn translation<'a, F: Files>(
    alloc: Global,
    asked: &Translation<'a>,
    files: &mut F,
) -> Result<Output<'a>, Refusal<'a>>
    requires numeral { IfSome (translation_of asked.now).numeral IsNumeral }
    requires apart { AreApart (translation_of asked.now).names }
    ensures given { IfOk result (Seen F.state
        (GivesOutput (to_translate (translation_of asked.now))) files.old files.new) }
    ensures refused { IfErr result (Seen F.state
        (StopsOutput (to_translate (translation_of asked.now))) files.old files.new) }
    ensures passed { IfOk result (λ made. Seen F.passed (PassesInputs (to_translate (translation_of asked.now)))
        files.old files.new (gives (output_of made))) }
    ensures stopped { IfErr result (Seen F.passed
        (StopsInputs (to_translate (translation_of asked.now))) files.old files.new) }
{
    let given = given_slots(asked.numeral, asked.rule)?;
    let sources = read_two(alloc, files, asked.names.d, asked.names.p)?;
    let output = translated(
        alloc,
        asked,
        given,
        sources.domain.as_slice(),
        sources.problem.as_slice(),
    );
    drop(sources);
    output
}

/// What the translation of two texts gives.
fn translated<'a>(
    alloc: Global,
    asked: &Translation<'a>,
    given: Option<u32>,
    domain: &[u8],
    problem: &[u8],
) -> Result<Output<'a>, Refusal<'a>>
    requires domain_short { length domain.now ≤ longest_input }
    requires problem_short { length problem.now ≤ longest_input }
    requires given { IsGiven (most_by asked.now.rule) (translation_of asked.now).numeral given }
    requires apart { asked.now.names.od.now ≢ asked.now.names.op.now }
    ensures output { IfOk result (λ made. GivesTranslation
        (translation_of asked.now) domain.now problem.now (output_of made)) }
    ensures differ { IfOk result NamesDiffer }
    ensures refused { IfErr result (StopsTexts
        (to_translate (translation_of asked.now)) (domain.now ∷ problem.now ∷ [])) }
{
    let Named { d, p, .. } = asked.names;
    let compiled = compiled_from(alloc, domain, problem, &asked.checks, d, p)?;
    let output = output_for(alloc, &compiled, asked, given);
    drop(compiled);
    output
}

/// The texts of a compiled problem with the given number of slots, or with its bound.
fn output_for<'a>(
    alloc: Global,
    compiled: &Compiled,
    asked: &Translation<'a>,
    given: Option<u32>,
) -> Result<Output<'a>, Refusal<'a>>
    requires soundly { IsSoundlyCompiled compiled.now }
    requires apart { asked.now.names.od.now ≢ asked.now.names.op.now }
    ensures output { IfOk result (IsMadeFor (translation_of asked.now) compiled.now given) }
    ensures differ { IfOk result NamesDiffer }
    ensures refused { IfErr result (StopsMadeFor (translation_of asked.now) compiled.now given) }
{
    ordered_for(alloc, compiled, asked.form)?;
    let slots = slots_for(alloc, compiled, given, asked.level, asked.rule)?;
    output_with(alloc, compiled, asked, slots)
}

/// The texts of a compiled problem with so many slots.
fn output_with<'a>(
    alloc: Global,
    compiled: &Compiled,
    asked: &Translation<'a>,
    slots: u32,
) -> Result<Output<'a>, Refusal<'a>>
    requires soundly { IsSoundlyCompiled compiled.now }
    requires apart { asked.now.names.od.now ≢ asked.now.names.op.now }
    ensures output { IfOk result (IsMadeWith (translation_of asked.now) compiled.now slots) }
    ensures differ { IfOk result NamesDiffer }
    ensures refused { IfErr result (StopsPrinted compiled.now
        (manner_of (translation_of asked.now) slots)) }
{
    let manner = Manner {
        slots,
        form: asked.form,
        rule: asked.rule,
        style: asked.style,
        checks: asked.checks,
    };
    let texts = printed(alloc, compiled, &manner)?;
    match slots_told(alloc, slots) {
        Ok(told) => Ok(Output {
            written: Some(Written {
                od: asked.names.od,
                op: asked.names.op,
                texts,
            }),
            told,
        }),
        Err(refusal) => {
            drop(texts);
            Err(refusal)
        }
    }
}
