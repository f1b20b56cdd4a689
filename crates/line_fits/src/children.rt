ghost use Rattle.std.specs.Prelude.{IfOk};
ghost use Rattle.method_fits.specs.Subtasks.{said_works};
ghost use Rattle.line_fits.specs.ByNumbers as spec;

use htn_base::Memory;
use method_fits::Subtask;
use numbered_lines::Lines;
use plan_model::Head;

/// The subtask that the line at a place says. `None` where it says none.
fn subtask_at(lines: &Lines, place: usize) -> Option<Subtask<'_>>
    ensures { spec.IsTheSubtask lines.now place result }
{
    if let Some(step) = lines.steps.get(place) {
        let action = step.as_ref()?;
        return Some(Subtask {
            head: Head::Action(action.number),
            objects: action.objects.as_slice(),
        });
    }
    let split = lines.splits.get(place - lines.steps.len())?;
    let task = split.task.as_ref()?;
    Some(Subtask {
        head: Head::Task(task.number),
        objects: task.objects.as_slice(),
    })
}

/// Puts the subtasks that the lines at these places say in place of what was there. `false` where one of them says none.
pub(crate) fn fill<'a>(
    lines: &'a Lines,
    places: &[u32],
    said: &mut Vec<Subtask<'a>>,
) -> Result<bool, Memory>
    ensures { IfOk result (λ all. spec.AreTheWorks lines.now places.now all (said_works said.new.items)) }
{
    said.clear();
    for place in places {
        match subtask_at(lines, *place as usize) {
            Some(subtask) => said.push(subtask)?,
            None => return Ok(false),
        }
    }
    Ok(true)
}
