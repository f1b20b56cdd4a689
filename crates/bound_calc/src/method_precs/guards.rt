ghost use Rattle.std.specs.Prelude.{◌↔◌, IsTrue, IfOk};
ghost use Rattle.plan_model.specs.Parts.{AreListed};
ghost use Rattle.plan_model.specs.plan_meaning.Compilation as spec;

use crate::method_precs::placed::placed_of;
use crate::method_precs::single_guards::single_guards;
use htn_base::{List, Memory};
use plan_model::{Guard, Hddl, MethodSchema, Term, in_type};
use std::alloc::Global;

/// The subtasks' arguments that their declaration doesn't put into the parameter's type, in written order, each once.
pub fn guards_of(
    alloc: Global,
    problem: &Hddl,
    method: &MethodSchema,
) -> Result<List<Guard>, Memory>
    requires { AreListed problem.now.types }
    ensures { IfOk result (spec.AreGuards problem.now method.now) }
{
    let placed = placed_of(alloc, problem, method.children.as_slice())?;
    let mut kept = List::new(alloc);
    for guard in placed.as_slice() {
        if !is_declared_in(problem, method, guard) {
            kept.push(*guard)?;
        }
    }
    single_guards(alloc, kept.as_slice())
}

/// Whether the term's declaration puts it into the type.
fn is_declared_in(problem: &Hddl, method: &MethodSchema, guard: &Guard) -> bool
    requires { AreListed problem.now.types }
    ensures { IsTrue result ↔ spec.IsDeclaredIn problem.now method.now guard.now.ty guard.now.term }
{
    match guard.term {
        Term::Var(k) => match method.params.get(k as usize) {
            Some(param) => problem.types.is_a(param.ty, guard.ty),
            None => false,
        },
        Term::Obj(object) => in_type(&problem.types, &problem.objects, object, guard.ty),
    }
}
