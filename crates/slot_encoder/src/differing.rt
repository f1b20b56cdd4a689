ghost use Rattle.std.specs.Prelude.{◌≡◌, ◌+◌, ◌≤◌, ◌^◌, ◌++◌, map, OnOk};
ghost use Rattle.plan_model.specs.task_networks.Spelling.{numbers};
ghost use Rattle.slot_encoding.specs.EncodedActions.{differ};
ghost use Rattle.slot_encoder.specs.Pieces.{unequal_to};

use htn_base::{Boxed, List, Memory};
use plan_model::{Formula, Term};
use slot_encoding::slot_declarations::plus;
use std::alloc::Global;

/// Puts at the end that each two of the new slots differ.
pub(crate) fn push_differing(
    alloc: Global,
    spare: u32,
    into: &mut List<Formula>,
) -> Result<(), Memory>
    ensures { OnOk result (into.new ≡ into.old ++ differ (numbers 1 spare)) }
{
    for i in 0..spare {
        push_unequal(alloc, 1 + i, plus(i, 2)?, spare - 1 - i, into)?;
    }
    Ok(())
}

/// Puts at the end that the slot differs from so many others.
fn push_unequal(
    alloc: Global,
    slot: u32,
    first: u32,
    count: u32,
    into: &mut List<Formula>,
) -> Result<(), Memory>
    requires { first + count ≤ 2 ^ 32 }
    ensures { OnOk result (into.new ≡ into.old ++ map (unequal_to slot) (numbers first count)) }
{
    for k in 0..count {
        let equal = Formula::Equal(Term::Var(slot), Term::Var(first + k));
        into.push(Formula::Not(Boxed::new(alloc, equal)?))?;
    }
    Ok(())
}
