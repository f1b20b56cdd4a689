use problem_index::PrintedName;

/// What a printed step is read as, beside its new slots and its objects.
#[derive(Clone, Copy)]
pub enum Read {
    /// The name is no printed action's.
    Unnamed,
    /// The number of arguments is wrong, or one is no slot from 1 to the number of slots where a slot is due, or no object of
    /// the declared type where an object is.
    Unread,
    /// What is processed, at which slot.
    Act { name: PrintedName, slot: u32 },
}
