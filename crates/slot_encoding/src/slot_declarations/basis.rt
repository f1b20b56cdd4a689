ghost use Rattle.std.specs.Prelude.{◌≡◌, ◌∷◌, [], ◌++◌, length, IfOk, OnOk};
ghost use Rattle.slot_encoding.specs.slot_declarations.Frames.{HasSourceWords, IsBasis, AreChecks};
ghost use Rattle.slot_encoding.specs.slot_declarations.Pieces.{if_checked};

use crate::slot_declarations::guards::guard_types;
use crate::slot_declarations::numbers::{Numbers, numbers_of, plus};
use crate::slot_declarations::words::name_of;
use htn_base::{List, Memory, NameTable, number};
use order_encoder::OrderNames;
use plan_model::{Compiled, MethodPlan};
use std::alloc::Global;

/// What is worked out once for all parts of the printed problem: the numbers of predicates, the names of order pairs, the
/// types of guards, and the checks.
pub struct Basis {
    pub numbers: Numbers,
    pub order: OrderNames,
    pub guard_types: List<u32>,
    pub checks: Checks,
}

impl Drop for Basis {
    fn drop(self) {
        let Basis {
            numbers: _,
            order: _,
            guard_types: _,
            checks: _,
        } = self;
    }
}

/// The numbers of the methods that have checks, and for each method how many before it have one.
pub struct Checks {
    pub methods: List<u32>,
    pub before: List<u32>,
}

impl Drop for Checks {
    fn drop(self) {
        let Checks {
            methods: _,
            before: _,
        } = self;
    }
}

/// That of a compiled problem with so many slots, whose printed words begin with those of the source; or want of memory.
pub fn basis_of(
    alloc: Global,
    c: &Compiled,
    printed: &NameTable,
    slots: u32,
) -> Result<Basis, Memory>
    requires { HasSourceWords c.now.hddl.names printed.now }
    ensures { IfOk result (IsBasis c.now printed.now slots) }
{
    let checks = checks_of(alloc, c.methods.as_slice())?;
    let numbers = numbers_of(c, checks.methods.len())?;
    let first_slot = number(c.hddl.objects.len())?;
    plus(first_slot, slots)?;
    Ok(Basis {
        numbers,
        order: OrderNames {
            before: numbers.before,
            slot_type: 1,
            x: name_of(printed, b"htn_x"),
            first_slot,
        },
        guard_types: guard_types(alloc, c)?,
        checks,
    })
}

fn checks_of(alloc: Global, methods: &[MethodPlan]) -> Result<Checks, Memory>
    ensures { IfOk result (AreChecks methods.now) }
{
    let mut checks = Checks {
        methods: List::new(alloc),
        before: List::new(alloc),
    };
    for plan in methods {
        push_method(plan, &mut checks)?;
    }
    Ok(checks)
}

fn push_method(plan: &MethodPlan, checks: &mut Checks) -> Result<(), Memory>
    ensures before { OnOk result
        (checks.new.before ≡ checks.old.before ++ length checks.old.methods ∷ []) }
    ensures methods { OnOk result
        (checks.new.methods ≡ checks.old.methods ++ if_checked plan.now (length checks.old.before)) }
{
    let m = number(checks.before.len())?;
    checks.before.put(number(checks.methods.len()))?;
    if plan.checked {
        checks.methods.push(m)
    } else {
        Ok(())
    }
}
