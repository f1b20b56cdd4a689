use htn_base::List;

/// An action or a task, by its number, with the numbers of its objects.
pub struct Said {
    pub number: u32,
    pub objects: List<u32>,
}

impl Drop for Said {
    fn drop(self) {
        let Said {
            number: _,
            objects: _,
        } = self;
    }
}

/// The line of a decomposed task: the task, the method, and the places of the lines of its subtasks. `None` where the words are those
/// of no task with objects, or of no method.
pub struct Split {
    pub task: Option<Said>,
    pub method: Option<u32>,
    pub children: List<u32>,
}

impl Drop for Split {
    fn drop(self) {
        let Split {
            task: _,
            method: _,
            children: _,
        } = self;
    }
}

/// The lines of a hierarchical plan. A line's place is its place among the primitive lines, and behind these among the lines of
/// decomposed tasks. `steps` are the primitive lines: `None` where the words are those of no action with objects.
pub struct Lines {
    pub steps: List<Option<Said>>,
    pub root: List<u32>,
    pub splits: List<Split>,
}

impl Drop for Lines {
    fn drop(self) {
        let Lines {
            steps: _,
            root: _,
            splits: _,
        } = self;
    }
}
