ghost use Rattle.std.specs.Prelude.{ℕ, None, List};
ghost use Rattle.pddl_printer.specs.Behind.{of_each};
ghost use Rattle.pddl_printer.specs.Texts.{action_text};
ghost use Rattle.text_forms.specs.sheets.Sheets.{Wrote};
ghost use Rattle.hddl_texts.specs.Texts.{task_text, method_text, top_text};
ghost use Rattle.hddl_texts.specs.declared.problem.PrintedProblem.{PrintedProblem};

use crate::networks::add_network;
use crate::problem::PrintedProblem;
use crate::words::task_word;
use pddl_printer::{Batch, add_applied, add_formula, add_variables, name_word, put_action};
use plan_model::{ActionSchema, MethodSchema, Scope, TaskSchema};
use text_forms::sheets::Sheet;

/// What stands on a line of its own.
pub(crate) trait Line {
    ghost text: { PrintedProblem → Self → List ℕ };

    /// Puts the line.
    fn put(&self, p: &PrintedProblem, sheet: &mut Sheet<'_>)
        ensures { Wrote (text p.now self.now) sheet.old sheet.new };
}

/// Puts each on a line of its own.
pub(crate) fn put_lines<T: Line>(p: &PrintedProblem, items: &[T], sheet: &mut Sheet<'_>)
    ensures { Wrote (of_each (T.text p.now) items.now) sheet.old sheet.new }
{
    for item in items {
        item.put(p, sheet);
    }
}

impl Line for TaskSchema {
    ghost text = { task_text };

    fn put(&self, p: &PrintedProblem, sheet: &mut Sheet<'_>) {
        let mut batch = Batch::new();
        batch.add(b" (:task ", sheet);
        batch.add(name_word(&p.pddl, self.name), sheet);
        batch.add(b" :parameters", sheet);
        add_variables(&p.pddl, self.params.as_slice(), &mut batch, sheet);
        batch.add(b")\n", sheet);
        batch.put(sheet);
    }
}

impl Line for MethodSchema {
    ghost text = { method_text };

    fn put(&self, p: &PrintedProblem, sheet: &mut Sheet<'_>) {
        let params = self.params.as_slice();
        let scope = Scope::Within(&Scope::Empty, params);
        let task = task_word(p, self.task);
        let mut batch = Batch::new();
        batch.add(b" (:method ", sheet);
        batch.add(name_word(&p.pddl, self.name), sheet);
        batch.add(b" :parameters", sheet);
        add_variables(&p.pddl, params, &mut batch, sheet);
        batch.add(b" :task", sheet);
        add_applied(
            &p.pddl,
            &scope,
            task,
            self.task_args.as_slice(),
            &mut batch,
            sheet,
        );
        batch.add(b" :precondition", sheet);
        add_formula(&p.pddl, &scope, &self.pre, &mut batch, sheet);
        add_network(p, self, &mut batch, sheet);
        batch.add(b")\n", sheet);
        batch.put(sheet);
    }
}

impl Line for ActionSchema {
    ghost text = { λ p a. action_text p.pddl None a };

    fn put(&self, p: &PrintedProblem, sheet: &mut Sheet<'_>) {
        put_action(&p.pddl, None, self, sheet);
    }
}

/// Puts the parameters and the network of the top method.
pub(crate) fn put_top(p: &PrintedProblem, top: &MethodSchema, sheet: &mut Sheet<'_>)
    ensures { Wrote (top_text p.now top.now) sheet.old sheet.new }
{
    let mut batch = Batch::new();
    batch.add(b" :parameters", sheet);
    add_variables(&p.pddl, top.params.as_slice(), &mut batch, sheet);
    add_network(p, top, &mut batch, sheet);
    batch.put(sheet);
}
