/// Why a list of ground actions spells no solution, in the order in which the causes are looked at.
///
/// The first two concern the words of a step, the next four the tasks that are open, the seventh the state, and the last two the
/// end of the list. Source: this project's.
#[derive(Clone, Copy, PartialEq)]
pub enum Why {
    /// The name is no printed action's.
    UnknownAction,
    /// The number of arguments is wrong, or one is no slot where a slot is due, or no object of the declared type where an object is.
    Arguments,
    /// The slot holds no such action, check or task.
    SlotHolds,
    /// What the slot holds waits for another open leaf.
    Waiting,
    /// A new slot is an open leaf's, or stands twice.
    SlotTaken,
    /// A constraint of the method is false, or a subtask's argument is not of its declared type.
    Constraint,
    /// The condition of the action, of the check or of a method that is tested where it is applied is false.
    Precondition,
    /// All steps can be taken, and an open leaf is left.
    Unfinished,
    /// All steps can be taken, no leaf is left, and the goal is false.
    GoalFalse,
}
