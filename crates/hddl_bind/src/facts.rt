ghost use Rattle.std.specs.Prelude.{◌≡◌, IfOk, OnOk};
ghost use Rattle.name_binding.specs.Spots.{noted};
ghost use Rattle.hddl_bind.specs.Facts.{facts_bound, facts_faults};

use gd_reader::RawFacts;
use htn_base::Memory;
use name_binding::{Faults, Known, fact_of};
use plan_model::Facts;
use std::alloc::Global;

/// The facts of a problem, in the same order, repeats too. Faults: 13 and 17 at a predicate's name, 15 at an object's, 16 at a
/// variable, since none is in force.
pub fn facts_of(
    alloc: Global,
    known: &Known,
    facts: &RawFacts,
    faults: &mut Faults,
) -> Result<Facts, Memory>
    ensures bound { IfOk result (λ bound. bound ≡ facts_bound known.now facts.now) }
    ensures faults { OnOk result
        (faults.new.least ≡ noted faults.old.least (facts_faults known.now facts.now)) }
{
    // Room for two objects each, which is enough for most: memory that is never touched costs nothing, and growing copies.
    let mut bound = Facts::with_room(alloc, facts.len(), facts.len().saturating_mul(2))?;
    let mut terms = Vec::new(alloc);
    let mut args = Vec::new(alloc);
    for i in 0..facts.len() {
        if let Some(head) = facts.read(i, &mut terms)? {
            let predicate = fact_of(known, head, terms.as_slice(), &mut args, faults)?;
            bound.push(predicate, args.as_slice())?;
        }
    }
    Ok(bound)
}
