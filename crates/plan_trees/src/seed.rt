/// What stands at a node: the action of a primitive line, a decomposed task, or the check of a decomposed task's method. A primitive line
/// is given by its place. A decomposed task is given by the place of its line among those of such tasks, and the root, which has no line,
/// by none.
#[derive(Clone, Copy)]
pub(crate) enum Source {
    Step { line: u32 },
    Task { line: Option<u32> },
    Check { line: Option<u32> },
}

/// A node: what stands at it, the place of its parent's seed among the seeds, and its child number.
#[derive(Clone, Copy)]
pub(crate) struct Seed {
    pub(crate) source: Source,
    pub(crate) parent: Option<u32>,
    pub(crate) child: u32,
}
