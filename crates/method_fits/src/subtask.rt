use plan_model::Head;

/// A subtask, which is no check: an action or a task, with its objects.
#[derive(Clone, Copy)]
pub struct Subtask<'a> {
    pub head: Head,
    pub objects: &'a [u32],
}
