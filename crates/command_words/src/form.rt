/// In what form a problem is printed.
#[derive(Clone, Copy)]
pub enum PrintedForm {
    /// With slots, each of which holds at most one pending task.
    Slots,
    /// As a stack, of a problem whose methods are totally ordered: only what is at the tip can be taken.
    Stack,
}
