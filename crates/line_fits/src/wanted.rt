/// What a ground method is to do: its method, the number and the objects of the task that it is to decompose, and the places of the
/// lines that are to say its subtasks.
#[derive(Clone, Copy)]
pub(crate) struct Wanted<'a> {
    pub(crate) method: u32,
    pub(crate) task: usize,
    pub(crate) objects: &'a [u32],
    pub(crate) children: &'a [u32],
}
