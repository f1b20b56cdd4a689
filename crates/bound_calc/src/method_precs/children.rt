ghost use Rattle.std.specs.Prelude.{◌≡◌, ◌<◌, ◌^◌, IfOk, length};
ghost use Rattle.plan_model.specs.plan_meaning.Compilation as spec;

use htn_base::{List, Memory};
use plan_model::{Child, Head, MethodSchema, Term};
use std::alloc::Global;

/// The check, if there is one, with all parameters, and then the subtasks in written order.
pub fn children_of(
    alloc: Global,
    checked: bool,
    method: &MethodSchema,
) -> Result<List<Child>, Memory>
    requires few { length method.now.params < 2 ^ 32 }
    ensures children { IfOk result (λ children. children ≡ spec.children checked method.now) }
{
    let mut children = List::with_room(alloc, method.children.len().saturating_add(1))?;
    if checked {
        let mut args = List::new(alloc);
        for k in 0..method.params.len() as u32 {
            args.push(Term::Var(k))?;
        }
        children.push(Child {
            id: None,
            head: Head::Check,
            args,
        })?;
    }
    for child in method.children.as_slice() {
        children.put(child.copy(alloc))?;
    }
    Ok(children)
}
