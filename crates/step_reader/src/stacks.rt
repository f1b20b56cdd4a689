ghost use Rattle.std.specs.Prelude.{◌≡◌, ◌+◌, ◌≤◌, ◌<◌, ◌^◌, length, IfOk, OnOk};
ghost use Rattle.plan_model.specs.Pairs.{Pairs};
ghost use Rattle.plan_model.specs.task_networks.Order.{IsLine};
ghost use Rattle.plan_model.specs.plan_meaning.Network.{network};
ghost use Rattle.stack_machine.specs.Stack.{IsTotal};
ghost use Rattle.ground_state.specs.Frames.{frame};
ghost use Rattle.ground_state.specs.Runs.{words_step, IsAsRoomy};
ghost use Rattle.step_reader.specs.Readings.{IsReadable, AreOwn, HasRoomIn};
ghost use Rattle.stack_encoding.specs.StackSpelling.{cells_of};
ghost use Rattle.decoding.specs.PrintedSteps.{HasSoundChecks};
ghost use Rattle.step_reader.specs.Cells.{children_at};
ghost use Rattle.step_reader.specs.StackReadings as spec;

use crate::cells::fill_cells;
use crate::due::{children_at as children_of, params_of};
use crate::rows::{fill_others, own_cell, place};
use ground_state::{Env, fill};
use htn_base::Memory;
use plan_model::{Compiled, MethodPlan};
use problem_index::{PrintedIndex, PrintedName, World};

/// What a printed step of a stack is read as, beside its new cells and its objects.
#[derive(Clone, Copy)]
pub enum StackRead {
    /// The name is no printed action's.
    Unnamed,
    /// The number of arguments is wrong, or one is no cell from 0 to the number of cells where a cell is due, or no object of
    /// the declared type where an object is.
    Unread,
    /// The arguments are those that are due, and the cells do not lie one above the other.
    Apart,
    /// What is processed, at which cell.
    Act { name: PrintedName, cell: u32 },
}

/// Writes down the cells of the method's children other than the heir, where its own cell is this, in place of what was written
/// there. The cells that a step names, one for each child, are written over.
fn fill_children(
    plan: &MethodPlan,
    cell: u32,
    cells: &mut Vec<u32>,
    new: &mut Vec<u32>,
) -> Result<(), Memory>
    requires line { IsLine (Pairs plan.now.schema.pairs) (length plan.now.schema.children) plan.now.line }
    requires long { length cells.old.items ≡ length plan.now.schema.children }
    requires few { length plan.now.schema.children < 2 ^ 32 }
    requires room { cell + length plan.now.schema.children ≤ 2 ^ 32 }
    ensures { OnOk result (new.new.items ≡ spec.child_cells plan.now cell) }
{
    place(plan.line.as_slice(), cell, cells);
    fill_others(plan.heir, cells.as_slice(), new)
}

/// Writes down the cells of the children other than the heir of what is processed, where its own cell is this, in place of what was
/// written there. The cells that its step names are written over.
fn fill_new(
    c: &Compiled,
    name: PrintedName,
    cell: u32,
    cells: &mut Vec<u32>,
    new: &mut Vec<u32>,
) -> Result<(), Memory>
    requires lines { spec.HasLines c.now }
    requires some { 1 ≤ cell }
    requires row { cells.old.items ≡ cells_of cell (children_at c.now name) }
    requires room { cell + children_at c.now name ≤ 2 ^ 32 }
    ensures { OnOk result (new.new.items ≡ spec.new_cells c.now name cell) }
{
    new.clear();
    let PrintedName::Method(method) = name else {
        return Ok(());
    };
    let Some(plan) = c.methods.get(method as usize) else {
        return Ok(());
    };
    if plan.schema.children.len() == 0 {
        return Ok(());
    }
    fill_children(plan, cell, cells, new)
}

/// Reads the step of these words, where there are cells 0 to so many. The cells that it names are written to `named`, and those of
/// its children other than the heir to `new`, in place of what was written there, and the objects are put in force in the
/// environment. Where the step is not read, all have whatever.
pub fn read_at_cells(
    printed: &PrintedIndex,
    world: &World<'_>,
    c: &Compiled,
    cells: u32,
    name: &[u8],
    args: &[&[u8]],
    named: &mut Vec<u32>,
    new: &mut Vec<u32>,
    env: &mut Env,
) -> Result<StackRead, Memory>
    requires readable { IsReadable c.now }
    requires checks { HasSoundChecks c.now }
    requires lines { spec.HasLines c.now }
    requires total { IsTotal (network c.now) }
    requires own { AreOwn c.now printed.now world.now }
    requires room { HasRoomIn c.now (frame env.old) }
    ensures read { IfOk result (λ answer.
        spec.IsStackReading c.now cells (words_step name.now args.now) answer new.new.items (frame env.new).objects) }
    ensures new { IfOk result (λ answer. spec.HasStackNew c.now answer new.new.items (frame env.new).objects) }
    ensures room { IsAsRoomy (frame env.old) (frame env.new) }
{
    let Some(found) = printed.find(c, name) else {
        return Ok(StackRead::Unnamed);
    };
    let children = children_of(c, found);
    let due = due_cells(children);
    if args.len() < due {
        return Ok(StackRead::Unread);
    }
    let (words, objects) = args.split_at(due);
    if !fill_cells(cells, words, named)? {
        return Ok(StackRead::Unread);
    }
    if !fill(printed.index(), world, params_of(c, found), objects, env) {
        return Ok(StackRead::Unread);
    }
    let Some(cell) = own_cell(children, named.as_slice()) else {
        return Ok(StackRead::Apart);
    };
    fill_new(c, found, cell, named, new)?;
    Ok(StackRead::Act { name: found, cell })
}

/// How many cells a step with so many children names.
fn due_cells(children: usize) -> usize
    ensures { result ≡ length (cells_of 0 children) }
{
    if children == 0 { 2 } else { children }
}
