/// How the precondition of a method is checked: by a leaf of its own, which may come late, or at once where the
/// method is applied.
#[derive(Clone, Copy)]
pub enum Checks {
    Leaf,
    AtOnce,
}

/// How the problem is printed: with the conditions and effects of PDDL's ADL part, or with conjunctions of literals
/// alone.
#[derive(Clone, Copy)]
pub enum Style {
    Adl,
    Flat,
}

/// Which free slots a method takes for its new subtasks: any, or the lowest ones in the order of their numbers.
#[derive(Clone, Copy)]
pub enum Slots {
    Any,
    First,
}
