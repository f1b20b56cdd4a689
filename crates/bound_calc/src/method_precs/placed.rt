ghost use Rattle.std.specs.Prelude.{◌≡◌, [], IfOk};
ghost use Rattle.plan_model.specs.plan_meaning.Compilation as spec;

use htn_base::{List, Memory};
use plan_model::{Child, Guard, Hddl, Head, Param};
use std::alloc::Global;

/// Each argument of the subtasks with the type of its parameter, as far as there are both.
pub fn placed_of(alloc: Global, problem: &Hddl, children: &[Child]) -> Result<List<Guard>, Memory>
    ensures { IfOk result (λ placed. placed ≡ spec.all_placed problem.now children.now) }
{
    let mut placed = List::new(alloc);
    for child in children {
        let params = params_of(problem, &child.head);
        let args = child.args.as_slice();
        for k in 0..params.len().min(args.len()) {
            placed.push(Guard {
                ty: params[k].ty,
                term: args[k],
            })?;
        }
    }
    Ok(placed)
}

/// The declared parameters of what a subtask names.
fn params_of<'a>(problem: &'a Hddl, head: &Head) -> &'a [Param]
    ensures { result.now ≡ spec.params_of problem.now head.now }
{
    match head {
        Head::Task(task) => match problem.tasks.get(*task as usize) {
            Some(schema) => schema.params.as_slice(),
            None => &[],
        },
        Head::Action(action) => match problem.actions.get(*action as usize) {
            Some(schema) => schema.params.as_slice(),
            None => &[],
        },
        Head::Check => &[],
    }
}
