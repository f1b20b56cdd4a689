/// Why a list of ground actions is no plan, in the order in which the causes are looked at.
#[derive(Clone, Copy, PartialEq)]
pub enum FailWhy {
    /// No action of the problem has the name.
    UnknownAction,
    /// The number of arguments is wrong, or one is no object of its parameter's type.
    Arguments,
    /// The condition is false in the state before the step.
    Condition,
    /// All steps can be taken, and the goal is false at the end.
    GoalFalse,
}
