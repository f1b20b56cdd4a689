ghost use Rattle.std.specs.Prelude.{◌≡◌, ◌≤◌, ◌^◌, length, IfOk, OnOk};
ghost use Rattle.bound_calc.specs.stratifier.Finishing.{IsBefore, IsDescentOf, work_of};
ghost use Rattle.bound_calc.specs.stratifier.Graph.{AreWithin, IsFinishingOrder};

use htn_base::{List, Memory};
use std::alloc::Global;

/// The tasks in an order in which a depth-first walk over the rows leaves them.
pub fn finishing_order(alloc: Global, rows: &[List<u32>]) -> Result<Vec<u32>, Memory>
    requires few { length rows.now ≤ 2 ^ 32 }
    requires within { AreWithin rows.now }
    ensures order { IfOk result (λ order. IsFinishingOrder rows.now order.items) }
{
    let mut walk = Descent::new(alloc, rows)?;
    while let Some(step) = walk.steps.pop() {
        walk.take(rows, step)?;
    }
    Ok(walk.into_order())
}

/// What a walk still has to do: enter a task, or leave one after all that it leads to.
#[derive(Clone, Copy)]
pub enum Step {
    Enter(u32),
    Leave(u32),
}

/// A depth-first walk: the tasks that it entered are marked, the last step is the next, and
/// `order` has the tasks that it left.
pub struct Descent {
    marks: Vec<bool>,
    steps: Vec<Step>,
    order: Vec<u32>,
}

impl Drop for Descent {
    fn drop(self) {
        let Descent {
            marks: _,
            steps: _,
            order: _,
        } = self;
    }
}

impl Descent {
    /// The walk that has to enter each task.
    fn new(alloc: Global, rows: &[List<u32>]) -> Result<Descent, Memory>
        requires few { length rows.now ≤ 2 ^ 32 }
        ensures descent { IfOk result (IsDescentOf rows.now) }
    {
        let mut steps = Vec::new(alloc);
        for task in 0..rows.len() {
            steps.push(Step::Enter(task as u32))?;
        }
        Ok(Descent {
            marks: vec![in alloc; false; rows.len()]?,
            steps,
            order: Vec::new(alloc),
        })
    }

    /// The tasks that it left.
    fn into_order(self) -> Vec<u32>
        ensures { result ≡ self.order }
    {
        let Descent {
            marks: _,
            steps: _,
            order,
        } = self;
        order
    }

    /// Takes the step that was last.
    fn take(&mut self, rows: &[List<u32>], step: Step) -> Result<(), Memory>
        requires within { AreWithin rows.now }
        requires descent { IsBefore rows.now step self.old }
        ensures descent { OnOk result (IsDescentOf rows.now self.new) }
        ensures less { OnOk result (work_of rows.now self.new ≤ work_of rows.now self.old) }
    {
        match step {
            Step::Leave(task) => self.order.push(task)?,
            Step::Enter(task) => {
                if !self.marks[task as usize] {
                    self.marks[task as usize] = true;
                    self.steps.push(Step::Leave(task))?;
                    for next in rows[task as usize].as_slice() {
                        self.steps.push(Step::Enter(*next))?;
                    }
                }
            }
        }
        Ok(())
    }
}
