ghost use Rattle.std.specs.Prelude.{ℕ, ◌≡◌, IfSome, IfOk, IfErr};
ghost use Rattle.std.specs.Option.{option_copied};
ghost use Rattle.command_words.specs.Bounds.{ComesTo, IsNumeral};
ghost use Rattle.plan_texts.specs.SoundlyCompiled.{IsSoundlyCompiled};
ghost use Rattle.htn_cli.specs.Requests.{most_by as most_slots_by};
ghost use Rattle.htn_cli.specs.Slots.{RefusesSlots};
ghost use Rattle.htn_cli.specs.Stops.{AreSlots, IsChosen, IsComputed, IsGiven, StopsChosen, StopsComputed, StopsGiven};

use crate::problem::bound_of;
use crate::refusal::{Limit, Refusal};
use command_words::{Bound, Level, comes_to};
use htn_base::limits::MOST_SLOTS;
use plan_model::{Compiled, Slots};
use std::alloc::Global;

/// The most slots of which a method takes the lowest free ones: what is printed of them grows with their square.
const MOST_FIRST_SLOTS: u128 = 1_024;

/// The number of slots of a numeral, where one is given, of which a method takes free ones by this rule.
pub(crate) fn given_slots<'a>(
    numeral: Option<&'a str>,
    rule: Slots,
) -> Result<Option<u32>, Refusal<'a>>
    requires { IfSome (option_copied numeral) IsNumeral }
    ensures given { IfOk result (IsGiven (most_slots_by rule) (option_copied numeral.entry)) }
    ensures refused { IfErr result (StopsGiven (most_slots_by rule) (option_copied numeral.entry)) }
{
    match numeral {
        Some(numeral) => {
            let slots = slots_in(command_words::bound_of(numeral), rule)?;
            Ok(Some(slots))
        }
        None => Ok(None),
    }
}

/// The given number of slots, or else the bound of the problem at a level.
pub(crate) fn slots_for<'a>(
    alloc: Global,
    compiled: &Compiled,
    given: Option<u32>,
    level: Level,
    rule: Slots,
) -> Result<u32, Refusal<'a>>
    requires soundly { IsSoundlyCompiled compiled.now }
    ensures slots { IfOk result (IsChosen (most_slots_by rule) level compiled.now given) }
    ensures refused { IfErr result (StopsChosen (most_slots_by rule) level compiled.now given) }
{
    match given {
        Some(slots) => Ok(slots),
        None => computed_slots(alloc, compiled, level, rule),
    }
}

fn computed_slots<'a>(
    alloc: Global,
    compiled: &Compiled,
    level: Level,
    rule: Slots,
) -> Result<u32, Refusal<'a>>
    requires soundly { IsSoundlyCompiled compiled.now }
    ensures slots { IfOk result (IsComputed (most_slots_by rule) level compiled.now) }
    ensures refused { IfErr result (StopsComputed (most_slots_by rule) level compiled.now) }
{
    let bound = bound_of(alloc, compiled, level)?;
    slots_in(comes_to(bound), rule)
}

#[tactic(auto, using(crate::proofs::Rules::few_by))]
fn slots_in<'a>(bound: Bound, rule: Slots) -> Result<u32, Refusal<'a>>
    ensures slots { IfOk result (λ slots. (n : ℕ) → ComesTo n bound → AreSlots (most_slots_by rule) n slots) }
    ensures refused { IfErr result (λ refusal. (n : ℕ) →
        ComesTo n bound → RefusesSlots (most_slots_by rule) n refusal) }
{
    match bound {
        Bound::Slots(slots) if slots as u128 > most_by(rule) => {
            Err(Refusal::Limit(Limit::Slots(slots as u128)))
        }
        Bound::Slots(slots) => Ok(slots),
        Bound::TooMany(slots) => Err(Refusal::Limit(Limit::Slots(slots))),
        Bound::PastAll => Err(Refusal::Limit(Limit::Bound)),
    }
}

fn most_by(rule: Slots) -> u128
    ensures { result ≡ most_slots_by rule }
{
    match rule {
        Slots::Any => MOST_SLOTS,
        Slots::First => MOST_FIRST_SLOTS,
    }
}
