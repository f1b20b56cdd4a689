ghost use Rattle.std.specs.Prelude.{◌≡◌, ◌<◌, ◌≤◌, [], ◌∷◌, length, slice_get, Some, IfOk, IfErr};
ghost use Rattle.htn_base.specs.Limits.{longest_input};
ghost use Rattle.plan_texts.specs.SoundlyCompiled.{IsSoundlyCompiled};
ghost use Rattle.hddl_reader.specs.declared.sections.Language.TheVariants as language;
ghost use Rattle.text_values.specs.TextFaults.{IsLeastFault};
ghost use Rattle.text_values.specs.Values.{IsValueOf};
ghost use Rattle.htn_cli.specs.Levels.{IsBoundAt};
ghost use Rattle.htn_cli.specs.PrintedForms.{IsOrderedFor, unordered_word};
ghost use Rattle.htn_cli.specs.Problem.{SpellProblem};
ghost use Rattle.htn_cli.specs.Stops.{StopsBound, StopsFault, StopsOrder, TellsUnorderedAt};

use crate::faults::{Place, refusal_for};
use crate::refusal::{Failure, Finding, Limit, Refusal};
use bound_calc::method_precs::compile;
use bound_calc::{NoBound, problem_bound};
use command_words::{Level, PrintedForm};
use ground_bound::{GroundError, ground_bound, ground_cycle_words};
use htn_base::{Fault, Memory, Text};
use plan_model::{Checks, Compiled, Hddl};
use stack_encoder::untotal;
use std::alloc::Global;
use text_forms::sexpr_text::ReadError;
use text_values::hddl_of;

/// The problem that two texts of the files `d` and `p` spell, compiled.
pub(crate) fn compiled_from<'a>(
    alloc: Global,
    domain: &[u8],
    problem: &[u8],
    checks: &Checks,
    d: &'a str,
    p: &'a str,
) -> Result<Compiled, Refusal<'a>>
    requires domain_short { length domain.now ≤ longest_input }
    requires problem_short { length problem.now ≤ longest_input }
    ensures compiled { IfOk result (SpellProblem domain.now problem.now checks.now) }
    ensures refused { IfErr result (StopsFault (d.now ∷ p.now ∷ [])
        (IsLeastFault language.Hddl domain.now problem.now)) }
{
    match problem_from(alloc, domain, problem, d, p) {
        Ok(read) => match compile(alloc, read, checks) {
            Ok(compiled) => Ok(compiled),
            Err(_) => Err(Refusal::Failure(Failure::Memory)),
        },
        Err(refusal) => Err(refusal),
    }
}

/// The problem that two texts of the files `d` and `p` spell.
pub(crate) fn problem_from<'a>(
    alloc: Global,
    domain: &[u8],
    problem: &[u8],
    d: &'a str,
    p: &'a str,
) -> Result<Hddl, Refusal<'a>>
    requires domain_short { length domain.now ≤ longest_input }
    requires problem_short { length problem.now ≤ longest_input }
    ensures read { IfOk result (IsValueOf domain.now problem.now) }
    ensures refused { IfErr result (StopsFault (d.now ∷ p.now ∷ [])
        (IsLeastFault language.Hddl domain.now problem.now)) }
{
    match hddl_of(alloc, domain, problem) {
        Ok(read) => Ok(read),
        Err(ReadError::Bad(fault)) => Err(refusal_for(place_of(fault, d, p), fault.code)),
        Err(ReadError::Memory) => Err(Refusal::Failure(Failure::Memory)),
    }
}

/// The place of a fault of two texts.
fn place_of<'a>(fault: Fault, d: &'a str, p: &'a str) -> Place<'a>
    ensures name { fault.file < 2 → slice_get (d.now ∷ p.now ∷ []) fault.file
        ≡ Some result.name.now }
    ensures at { result.at ≡ fault.at }
{
    let name = match fault.file {
        0 => d,
        _ => p,
    };
    Place { name, at: fault.at }
}

/// Tells whether a compiled problem is printed in this form: as a stack only where all its methods are totally ordered.
pub(crate) fn ordered_for<'a>(
    alloc: Global,
    compiled: &Compiled,
    form: PrintedForm,
) -> Result<(), Refusal<'a>>
    requires soundly { IsSoundlyCompiled compiled.now }
    ensures ordered { IfOk result (λ u. IsOrderedFor form compiled.now) }
    ensures refused { IfErr result (StopsOrder form compiled.now) }
{
    match form {
        PrintedForm::Slots => Ok(()),
        PrintedForm::Stack => match untotal(compiled) {
            None => Ok(()),
            Some(method) => Err(unordered(alloc, compiled, method)),
        },
    }
}

/// The refusal of a problem with this first method that is not totally ordered.
fn unordered<'a>(alloc: Global, compiled: &Compiled, method: u32) -> Refusal<'a>
    ensures { TellsUnorderedAt compiled.now method result }
{
    match Text::from_slice(alloc, unordered_word(compiled, method)) {
        Ok(word) => Refusal::Finding(Finding::NotTotallyOrdered(word)),
        Err(Memory) => Refusal::Failure(Failure::Memory),
    }
}

/// The word of a method that is not totally ordered; the top method is number 0, and has no name in the problem.
fn unordered_word(compiled: &Compiled, method: u32) -> &[u8]
    ensures { result.now ≡ unordered_word compiled.now method }
{
    if method == 0 {
        return b"htn_start";
    }
    match compiled.methods.get(method as usize) {
        Some(plan) => match compiled.hddl.names.text(plan.schema.name) {
            Some(word) => word,
            None => b"",
        },
        None => b"",
    }
}

/// The bound of a compiled problem at a level.
pub(crate) fn bound_of<'a>(
    alloc: Global,
    compiled: &Compiled,
    level: Level,
) -> Result<u128, Refusal<'a>>
    requires soundly { IsSoundlyCompiled compiled.now }
    ensures bound { IfOk result (IsBoundAt level compiled.now) }
    ensures refused { IfErr result (StopsBound level compiled.now) }
{
    match level {
        Level::Lifted => lifted_bound(alloc, compiled),
        Level::Ground => bound_of_reached(alloc, compiled),
    }
}

/// The bound of its schemas.
fn lifted_bound<'a>(alloc: Global, compiled: &Compiled) -> Result<u128, Refusal<'a>>
    requires soundly { IsSoundlyCompiled compiled.now }
    ensures bound { IfOk result (IsBoundAt Level.Lifted compiled.now) }
    ensures refused { IfErr result (StopsBound Level.Lifted compiled.now) }
{
    match problem_bound(alloc, compiled) {
        Ok(number) => Ok(number),
        Err(NoBound::Cycle(words)) => Err(Refusal::Finding(Finding::NotTailRecursive(words))),
        Err(NoBound::Past128) => Err(Refusal::Limit(Limit::Bound)),
        Err(NoBound::Memory) => Err(Refusal::Failure(Failure::Memory)),
    }
}

/// The bound over what is reached of it.
fn bound_of_reached<'a>(alloc: Global, compiled: &Compiled) -> Result<u128, Refusal<'a>>
    requires soundly { IsSoundlyCompiled compiled.now }
    ensures bound { IfOk result (IsBoundAt Level.Ground compiled.now) }
    ensures refused { IfErr result (StopsBound Level.Ground compiled.now) }
{
    match ground_bound(alloc, compiled) {
        Ok(number) => Ok(number),
        Err(GroundError::TooMany) => Err(Refusal::Limit(Limit::Ground)),
        Err(GroundError::Cycle(edges)) => {
            let words = ground_cycle_words(alloc, compiled, edges.as_slice());
            drop(edges);
            match words {
                Ok(words) => Err(Refusal::Finding(Finding::NotTailRecursive(words))),
                Err(Memory) => Err(Refusal::Failure(Failure::Memory)),
            }
        }
        Err(GroundError::Past128) => Err(Refusal::Limit(Limit::Bound)),
        Err(GroundError::Memory) => Err(Refusal::Failure(Failure::Memory)),
    }
}
