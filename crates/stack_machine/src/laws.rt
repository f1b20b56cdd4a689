//! The laws of stacks, each the contract of a function that does nothing.

ghost use Rattle.plan_model.specs.task_networks.Lawful.{IsLawful};
ghost use Rattle.stack_machine.specs.Stack.{IsTotal};
ghost use Rattle.stack_machine.specs.StackLaws.{PreparedIsTotal, OneSchedule, SomeSchedule, CellsTellTip, PendingAreInARow, CellsExist, CellsAreTheOnlyOnes, CellsFitExactlyWhereWithin, CellsExactlyWhereWithin, OneCellsList, StackRunsAreCells, StackTellsFront, TipTestIsWaitTest, CellsAreInARow, OtherTakesCells, StackPlansAreSolutions, OneStackPlan};

use crate::machine::OtherStack;
use plan_model::task_networks::Network;
use slot_machine::Execution;

/// Where heirs are those of the lines, a network whose methods are totally ordered is total.
pub fn prepared_is_total<N: Network, T>(of: &T)
    ensures { PreparedIsTotal N.net }
{}

/// The cells of a method's children, from the line's last to its first, are its own and those above it, one after the other.
pub fn cells_are_in_a_row<N: Network, T>(of: &T)
    ensures { CellsAreInARow N.net }
{}

/// The order of a front is that of its tree, and a finished tree has one.
pub fn one_schedule<N: Network, T>(of: &T)
    requires lawful { IsLawful N.net }
    requires total { IsTotal N.net }
    ensures one { OneSchedule N.net }
    ensures some { SomeSchedule N.net }
{}

/// The cells of a front's open leaves are 1 to their number, and what is at the tip waits for none.
pub fn cells_tell_tip<N: Network, T>(of: &T)
    requires lawful { IsLawful N.net }
    requires total { IsTotal N.net }
    ensures tip { CellsTellTip N.net }
    ensures always { PendingAreInARow N.net }
    ensures some { CellsExist N.net }
    ensures only { CellsAreTheOnlyOnes N.net }
    ensures fit { CellsFitExactlyWhereWithin N.net }
{}

/// A front is spelled with its cells where never more than the number of cells are pending, by one list for its tree.
pub fn cells_are_a_rule<N: Network, T>(of: &T)
    requires lawful { IsLawful N.net }
    requires total { IsTotal N.net }
    ensures fronts { CellsExactlyWhereWithin N.net }
    ensures one { OneCellsList N.net }
{}

/// Runs of the stack are the fronts that are spelled with their cells, and its state tells them.
pub fn stack_runs_are_cells<N: Network, T>(of: &T)
    requires lawful { IsLawful N.net }
    requires total { IsTotal N.net }
    ensures runs { StackRunsAreCells N.net }
    ensures tells { StackTellsFront N.net }
    ensures tests { TipTestIsWaitTest N.net }
{}

/// Another machine that agrees with the stack takes the fronts that are spelled with their cells.
pub fn other_takes_cells<M: OtherStack, T>(of: &T)
    requires lawful { IsLawful M.net }
    requires total { IsTotal M.net }
    ensures { OtherTakesCells M.net M.read M.takes }
{}

/// Plans of the stack are the spellings of solutions with their cells, one for each tree that has few pending.
pub fn stack_plans_are_solutions<E: Execution, T>(of: &T)
    requires lawful { IsLawful E.net }
    requires total { IsTotal E.net }
    ensures plans { StackPlansAreSolutions E.net (E.atom → Type 0)
        E.allows E.next E.first E.goal }
    ensures one { OneStackPlan E.net (E.atom → Type 0) E.allows E.next E.first E.goal }
{}
