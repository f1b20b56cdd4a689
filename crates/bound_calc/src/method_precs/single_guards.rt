ghost use Rattle.std.specs.Prelude.{◌≡◌, IfOk};
ghost use Rattle.plan_model.specs.plan_meaning.Compilation as spec;
ghost use Rattle.bound_calc.specs.method_precs.Keys.{key};

use htn_base::{List, Memory};
use plan_model::{Guard, Term};
use std::alloc::Global;
use std::collections::BTreeSet;

/// Each guard at its first place alone. Guards that were met are found by an order, in no more steps whatever a text has.
pub fn single_guards(alloc: Global, guards: &[Guard]) -> Result<List<Guard>, Memory>
    ensures { IfOk result (λ single. single ≡ spec.once spec.same_guard guards.now) }
{
    let mut seen = BTreeSet::new(alloc);
    let mut single = List::new(alloc);
    for guard in guards {
        if seen.insert(key_of(guard))? {
            single.push(*guard)?;
        }
    }
    Ok(single)
}

/// What tells a guard from others: its type, whether it is of an object, and the number of the variable or object.
fn key_of(guard: &Guard) -> (u32, (bool, u32))
    ensures { result ≡ key guard.now }
{
    match guard.term {
        Term::Var(number) => (guard.ty, (false, number)),
        Term::Obj(number) => (guard.ty, (true, number)),
    }
}
