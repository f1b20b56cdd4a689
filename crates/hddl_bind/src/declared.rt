ghost use Rattle.std.specs.Prelude.{◌≡◌, [], IfOk, OnOk};
ghost use Rattle.name_binding.specs.Spots.{noted};
ghost use Rattle.hddl_bind.specs.Seconds.{seconds};
ghost use Rattle.hddl_bind.specs.DeclaredNames.{heads_declared, second_heads};

use crate::seconds::{Declares, seconds_of};
use hddl_reader::RawHead;
use htn_base::{Memory, number};
use name_binding::{Faults, Head, Heads, Places};
use std::alloc::Global;

/// The predicates of these heads by their names. One whose name an earlier one has is a fault of code 10.
pub(crate) fn predicates_declared(
    alloc: Global,
    heads: &[RawHead],
    faults: &mut Faults,
) -> Result<Heads, Memory>
    ensures declared { IfOk result (λ predicates. predicates ≡ heads_declared heads.now) }
    ensures faults { OnOk result
        (faults.new.least ≡ noted faults.old.least (second_heads heads.now)) }
{
    note_seconds(alloc, heads, faults)?;
    let mut predicates = Heads::new(alloc);
    for head in heads {
        let arity = number(head.params.len())?;
        predicates.declare(Head {
            name: head.name.name,
            arity,
        })?;
    }
    Ok(predicates)
}

/// Notes the fault of each item whose name an earlier one has: code 10.
pub(crate) fn note_seconds<T: Declares>(
    alloc: Global,
    items: &[T],
    faults: &mut Faults,
) -> Result<(), Memory>
    ensures faults { OnOk result
        (faults.new.least ≡ noted faults.old.least (seconds T.number T.offset [] items.now)) }
{
    let mut known = Places::new(alloc);
    seconds_of(&mut known, items, faults)
}
