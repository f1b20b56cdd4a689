ghost use Rattle.std.specs.Prelude.{◌≡◌, ◌<◌, ◌≤◌, ◌^◌, ℕ, [], length, IfOk, OnOk};
ghost use Rattle.bound_calc.specs.stratifier.Graph.{NumberComponents, AreReversed, AreWithin};
ghost use Rattle.bound_calc.specs.stratifier.Conditions.{IsSmallCompiled};
ghost use Rattle.bound_calc.specs.stratifier.Stratified.{AreStrata};
ghost use Rattle.bound_calc.specs.stratifier.NamedSearch.{AreAllEnds, AreEndsBelow};
ghost use Rattle.bound_calc.specs.stratifier.Grouping.{AreRowsOf, IsNumbered, IsNumberedFrom, IsReady};

use crate::stratifier::by_task::empty_lists;
use crate::stratifier::finishing::finishing_order;
use crate::stratifier::named::{Ends, sources_by_task};
use crate::stratifier::reach::Walk;
use htn_base::{List, Memory};
use plan_model::Compiled;
use std::alloc::Global;

/// Numbers of the tasks and the top task by their groups, so that no edge goes up.
pub(crate) fn task_groups(alloc: Global, c: &Compiled, ends: &[Ends]) -> Result<Vec<u32>, Memory>
    requires small { IsSmallCompiled c.now }
    requires ends { AreAllEnds c.now ends.now }
    ensures strata { IfOk result (λ numbers. AreStrata c.now numbers.items) }
{
    let count = c.hddl.tasks.len() + 1;
    let rows = targets_by_task(alloc, count, ends)?;
    let back = sources_by_task(alloc, count, ends)?;
    group_numbers(alloc, rows.as_slice(), back.as_slice())
}

/// For each of so many tasks those to which an edge leads from it.
fn targets_by_task(alloc: Global, count: usize, ends: &[Ends]) -> Result<Vec<List<u32>>, Memory>
    requires within { AreEndsBelow count ends.now }
    ensures room { IfOk result (λ lists. length lists.items ≡ count) }
    ensures targets { IfOk result (λ lists. AreRowsOf ends.now lists.items) }
{
    let mut lists = empty_lists(alloc, count)?;
    for e in ends {
        lists[e.from as usize].push(e.to)?;
    }
    Ok(lists)
}

/// A number for each task, the same for those that reach each other, so that no edge goes up;
/// `back` has the edges reversed.
pub fn group_numbers(
    alloc: Global,
    rows: &[List<u32>],
    back: &[List<u32>],
) -> Result<Vec<u32>, Memory>
    requires few { length rows.now ≤ 2 ^ 32 }
    requires within { AreWithin rows.now }
    requires reversed { AreReversed rows.now back.now }
    ensures groups { IfOk result (λ numbers. NumberComponents rows.now numbers.items) }
{
    let mut order = finishing_order(alloc, back)?;
    let mut groups = Groups::new(alloc, rows.len())?;
    while let Some(root) = order.pop() {
        let number = rows.len() - 1 - order.len();
        groups.number(rows, root, number as u32)?;
    }
    Ok(groups.into_numbers())
}

/// The numbers of the tasks that the walk entered.
pub struct Groups {
    walk: Walk,
    numbers: Vec<u32>,
}

impl Drop for Groups {
    fn drop(self) {
        let Groups {
            walk: _,
            numbers: _,
        } = self;
    }
}

impl Groups {
    /// No task of so many is numbered.
    fn new(alloc: Global, count: usize) -> Result<Groups, Memory>
        ensures ready { IfOk result (λ groups. length groups.walk.marks.items ≡ count) }
        ensures numbers { IfOk result (λ groups. length groups.numbers.items ≡ count) }
        ensures nothing { IfOk result (λ groups. groups.walk.work.items ≡ []) }
        ensures none { IfOk result (λ groups. (t : ℕ) → IsNumbered groups t → ⊥) }
    {
        Ok(Groups {
            walk: Walk::new(alloc, count)?,
            numbers: vec![in alloc; 0; count]?,
        })
    }

    /// The numbers of the tasks.
    fn into_numbers(self) -> Vec<u32>
        ensures { result ≡ self.numbers }
    {
        let Groups { walk: _, numbers } = self;
        numbers
    }

    /// Gives the number to all that the root reaches and that have none.
    fn number(&mut self, rows: &[List<u32>], root: u32, number: u32) -> Result<(), Memory>
        requires within { AreWithin rows.now }
        requires root { root < length rows.now }
        requires ready { IsReady rows.now self.old }
        ensures numbered { OnOk result (IsNumberedFrom rows.now root number self.old self.new) }
    {
        self.walk.enter(root)?;
        while let Some(task) = self.walk.work.pop() {
            self.numbers[task as usize] = number;
            self.walk.enter_all(rows[task as usize].as_slice())?;
        }
        Ok(())
    }
}
