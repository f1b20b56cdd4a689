//! Each of the calls that give a formula or an effect is made once with ample memory, at one slot in style flat: it has one part.

ghost use Rattle.std.specs.Prelude.{◌≡◌};

use htn_base::{Memory, Name};
use order_encoder::{OrderNames, clearing, copying, waiting};
use plan_model::{Effect, Formula, Style, Term};

/// The pairs' predicate is number 2, and the one slot is object 5.
fn names() -> OrderNames
    ensures { result.first_slot ≡ 5 }
{
    OrderNames {
        before: 2,
        slot_type: 1,
        x: Name { number: 7 },
        first_slot: 5,
    }
}

fn has_one_change(given: Result<Effect, Memory>) -> bool {
    let one = matches!(&given, Ok(Effect::And(parts)) if parts.len() == 1);
    drop(given);
    one
}

fn has_one_condition(given: Result<Formula, Memory>) -> bool {
    let one = matches!(&given, Ok(Formula::And(parts)) if parts.len() == 1);
    drop(given);
    one
}

#[test]
fn calls_give_one_part(rt: HostRuntime) {
    let (alloc, names, slot, child) = (rt.alloc(), names(), Term::Var(0), Term::Var(1));
    let waits = waiting(alloc, &names, 1, &Style::Flat, slot, 1);
    assert!(rt; has_one_condition(waits));
    let clears = clearing(alloc, &names, 1, &Style::Flat, slot, 1);
    assert!(rt; has_one_change(clears));
    let copies = copying(alloc, &names, 1, &Style::Flat, slot, child, 2);
    assert!(rt; has_one_change(copies));
}
