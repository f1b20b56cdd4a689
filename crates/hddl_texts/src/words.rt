ghost use Rattle.std.specs.Prelude.{◌≡◌, ◌++◌, decimal};
ghost use Rattle.pddl_printer.specs.Batches.{Added};
ghost use Rattle.plan_texts.specs.SpellsHddl.{action_words, task_words};
ghost use Rattle.text_forms.specs.Words.{word_at};
ghost use Rattle.hddl_texts.specs.PrintedHddl as spec;
ghost use Rattle.hddl_texts.specs.Texts.{hddl_of};

use crate::problem::PrintedProblem;
use itoa::Buffer;
use pddl_printer::{Batch, name_word};
use plan_model::Head;
use text_forms::sheets::Sheet;

/// The word of a task; of a number that no task has, the empty one.
pub(crate) fn task_word(p: &PrintedProblem, task: u32) -> &[u8]
    ensures { result.now ≡ word_at (task_words (hddl_of p.now)) task }
{
    match p.tasks.get(task as usize) {
        Some(declared) => name_word(&p.pddl, declared.name),
        None => b"",
    }
}

/// The word of an action; of a number that no action has, the empty one.
fn action_word(p: &PrintedProblem, action: u32) -> &[u8]
    ensures { result.now ≡ word_at (action_words (hddl_of p.now)) action }
{
    match p.pddl.actions.get(action as usize) {
        Some(declared) => name_word(&p.pddl, declared.name),
        None => b"",
    }
}

/// The word of a task or an action. A check, which no text has, has the empty one.
pub(crate) fn head_word(p: &PrintedProblem, head: Head) -> &[u8]
    ensures { result.now ≡ spec.head_word (hddl_of p.now) head }
{
    match head {
        Head::Task(task) => task_word(p, task),
        Head::Action(action) => action_word(p, action),
        Head::Check => b"",
    }
}

/// Adds the place of a subtask in its network to a batch, in decimal digits behind what stands before them.
pub(crate) fn add_place(before: &[u8], place: usize, batch: &mut Batch, sheet: &mut Sheet<'_>)
    ensures { Added (before.now ++ decimal place) batch.old batch.new sheet.old sheet.new }
{
    let mut digits = Buffer::new();
    batch.add(before, sheet);
    batch.add(digits.format(place).as_bytes(), sheet);
}
