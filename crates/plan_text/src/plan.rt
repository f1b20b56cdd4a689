ghost use Rattle.std.specs.Prelude.{◌≡◌, ◌∷◌, [], ◌≤◌, length, IfOk, IfErr, OnErr, MatchBool, MatchOption};
ghost use Rattle.htn_base.specs.Limits.{longest_input};
ghost use Rattle.htn_base.specs.Words.{folded};
ghost use Rattle.plan_text.specs.Plans.{IsPlanRead, RefusesPlan};
ghost use Rattle.plan_text.specs.Lowered.{IsInLowerCase, IsNoPlan};

use crate::coming::{Next, count, next_step};
use crate::departing::departs_at;
use crate::step::Step;
use crate::words::in_lower_case;
use htn_base::{Fault, Memory, Text};
use std::alloc::Global;
use std::marker::Model;
use text_forms::sexpr_text::ReadError;

/// A text that spells a plan, which contracts see as the list of its steps. It keeps the number of steps, and a copy of
/// the text in lower case where the text has upper-case letters.
pub struct Plan<'t> {
    text: &'t [u8],
    lower: Option<Text>,
    count: usize,
}

impl Drop for Plan<'_> {
    fn drop(self) {
        let Plan {
            text: _,
            lower: _,
            count: _,
        } = self;
    }
}

impl<'t> Model for Plan<'t> {
    ghost use Rattle.std.specs.Prelude.{List};
    ghost use Rattle.text_forms.specs.Tokens.{symbols};
    ghost use Rattle.plan_model.specs.declared.steps.GroundAction.{GroundAction};
    ghost use Rattle.plan_text.specs.Coming.{steps_in};
    ghost use Rattle.plan_text.specs.Lowered.{IsLookedThrough};

    ghost Value = { List GroundAction };

    ghost view = { λ plan. steps_in (symbols plan.text.now) };

    ghost invariant = { λ plan. IsLookedThrough plan.text.now plan.lower plan.count };
}

impl<'t> Plan<'t> {
    /// The plan that a text of at most 16,777,216 bytes spells, looked through to its end; it keeps no step. What is
    /// refused, and why, is as in `read`.
    pub fn new(alloc: Global, text: &'t [u8], file: u8) -> Result<Plan<'t>, ReadError>
        requires short { length text.now ≤ longest_input }
        ensures read { IfOk result (IsPlanRead text.now) }
        ensures refused { IfErr result (RefusesPlan file text.now) }
    {
        match looked_through(alloc, text) {
            Ok(Some(plan)) => Ok(plan),
            Ok(None) => Err(refusal(alloc, text, file)),
            Err(Memory) => Err(ReadError::Memory),
        }
    }

    /// The number of steps.
    pub fn len(&self) -> usize
        ensures length { result ≡ length self.now }
    {
        self.count
    }

    /// All steps in order, one at a time.
    pub fn steps(&self) -> Steps<'_>
        ensures steps { result ≡ self.now }
    {
        Steps {
            text: lower_text(self.text, &self.lower),
            at: 0,
        }
    }
}

/// The steps of a plan from some place of its text on, which contracts see as the list of these steps.
#[derive(Drop)]
pub struct Steps<'t> {
    text: &'t [u8],
    at: usize,
}

impl<'t> Model for Steps<'t> {
    ghost use Rattle.std.specs.Prelude.{List};
    ghost use Rattle.plan_model.specs.declared.steps.GroundAction.{GroundAction};
    ghost use Rattle.plan_text.specs.Coming.{said_at, steps_in, IsSpelledFrom};

    ghost Value = { List GroundAction };

    ghost view = { λ steps. steps_in (said_at steps.text.now steps.at) };

    ghost invariant = { λ steps. IsSpelledFrom steps.text.now steps.at };
}

impl<'t> Steps<'t> {
    /// Goes to the next step, if there is one: it is put in place of what was there. After `Memory` all that were to come
    /// are still to come.
    pub fn next(&mut self, into: &mut Step<'t>) -> Result<bool, Memory>
        ensures next { IfOk result
            (λ found. MatchBool found (self.old ≡ into.new ∷ self.new) (self.old ≡ [])) }
        ensures unchanged { OnErr result (self.new ≡ self.old) }
    {
        if let Next::Step(behind) = next_step(self.text, self.at, &mut into.words)? {
            self.at = behind;
            return Ok(true);
        }
        Ok(false)
    }
}

// The plan of a text, or `None` where it spells none.
fn looked_through(alloc: Global, text: &[u8]) -> Result<Option<Plan<'_>>, Memory>
    ensures plan { IfOk result
        (λ found. MatchOption found (IsNoPlan text.now) (IsPlanRead text.now)) }
{
    let lower = lower_of(alloc, text)?;
    match count(alloc, lower_text(text, &lower)) {
        Ok(Some(count)) => Ok(Some(Plan { text, lower, count })),
        Ok(None) => {
            drop(lower);
            Ok(None)
        }
        Err(Memory) => {
            drop(lower);
            Err(Memory)
        }
    }
}

// The text in lower case, or `None` where it is so.
fn lower_of(alloc: Global, text: &[u8]) -> Result<Option<Text>, Memory>
    ensures lower { IfOk result (IsInLowerCase text.now) }
{
    if text.iter().any(|byte| byte.is_ascii_uppercase()) {
        return Ok(Some(in_lower_case(alloc, text)?));
    }
    Ok(None)
}

// The text in lower case, of which there is a copy where it isn't so.
fn lower_text<'a>(text: &'a [u8], lower: &'a Option<Text>) -> &'a [u8]
    requires lower { IsInLowerCase text.now lower.now }
    ensures lower { result.now ≡ folded text.now }
{
    if let Some(lower) = lower {
        return lower.as_slice();
    }
    text
}

// Why a text that spells no plan isn't read as one.
fn refusal(alloc: Global, text: &[u8], file: u8) -> ReadError
    requires short { length text.now ≤ longest_input }
    requires none { IsNoPlan text.now }
    ensures { RefusesPlan file text.now result }
{
    match text_forms::sexpr_text::read(alloc, text, file) {
        Ok(s) => match departs_at(&s) {
            Some(at) => ReadError::Bad(Fault { code: 8, file, at }),
            None => unreachable!(),
        },
        Err(error) => error,
    }
}
