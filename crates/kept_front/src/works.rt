ghost use Rattle.std.specs.Prelude.{◌≡◌, ◌↔◌, IsTrue, []};
ghost use Rattle.std.specs.Option.{option_copied};
ghost use Rattle.plan_model.specs.plan_meaning.Truth.{value_of, values_of};
ghost use Rattle.plan_model.specs.plan_meaning.Network.{task, child_of};
ghost use Rattle.kept_front.specs.Works.{work_of, child_at};
ghost use Rattle.kept_front.specs.Fronts.{label_in, work_below};

use plan_model::{Child, Compiled, Head, Term};
use tree_core::Label;

/// What is to be done, without its objects: a task, an action, or the check of a method's precondition. Numbers are places in
/// a compiled value, where the top task has the number of the tasks.
#[derive(Clone, Copy, PartialEq)]
pub enum WorkKind {
    Task(u32),
    Action(u32),
    Check(u32),
}

impl WorkKind {
    /// Whether it is this task, which has no objects.
    pub(crate) fn is_task(self, number: usize, objects: &[u32]) -> bool
        ensures { IsTrue result ↔ (task number [] ≡ work_of self objects.now) }
    {
        match self {
            WorkKind::Task(task) => task as usize == number && objects.is_empty(),
            _ => false,
        }
    }

    /// Whether it is with these objects this child of the method, whose variables have the values.
    fn is_child(self, method: u32, values: &[u32], child: &Child, objects: &[u32]) -> bool
        ensures { IsTrue result
            ↔ (child_of (record { number = method; values = values.now }) child.now ≡ work_of self objects.now) }
    {
        match child.head {
            Head::Task(task) => {
                self == WorkKind::Task(task) && stand_for(child.args.as_slice(), values, objects)
            }
            Head::Action(action) => {
                self == WorkKind::Action(action)
                    && stand_for(child.args.as_slice(), values, objects)
            }
            Head::Check => self == WorkKind::Check(method) && values == objects,
        }
    }

    /// Whether it is with these objects what stands at this child of the label.
    pub(crate) fn is_below(self, c: &Compiled, label: &Label, child: u32, objects: &[u32]) -> bool
        ensures { IsTrue result ↔ (work_below c.now (label_in c.now label.now) child ≡ work_of self objects.now) }
    {
        let Label::Abstract {
            method,
            method_args,
            ..
        } = label
        else {
            return self.is_task(0, objects);
        };
        match child_at(c, *method, child) {
            Some(child) => self.is_child(*method, method_args.as_slice(), child, objects),
            None => self.is_task(0, objects),
        }
    }
}

/// The child of the method of this number.
fn child_at(c: &Compiled, method: u32, child: u32) -> Option<&Child>
    ensures { option_copied result ≡ child_at c.now method child }
{
    c.methods
        .get(method as usize)?
        .schema
        .children
        .get(child as usize)
}

/// Whether the terms stand for these objects, where the variables have the values.
fn stand_for(terms: &[Term], values: &[u32], objects: &[u32]) -> bool
    ensures { IsTrue result ↔ (values_of values.now terms.now ≡ objects.now) }
{
    if terms.len() != objects.len() {
        return false;
    }
    for (term, object) in terms.iter().zip(objects) {
        if value(*term, values) != *object {
            return false;
        }
    }
    true
}

/// The object that the term stands for. A variable without a value stands for object 0.
fn value(term: Term, values: &[u32]) -> u32
    ensures { result ≡ value_of values.now term }
{
    match term {
        Term::Var(variable) => match values.get(variable as usize) {
            Some(object) => *object,
            None => 0,
        },
        Term::Obj(object) => object,
    }
}
