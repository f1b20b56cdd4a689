use htn_base::{List, Text};

/// A line `id name args`: a task, by the words of its name and its arguments.
pub struct HLine {
    pub id: u64,
    pub name: Text,
    pub args: List<Text>,
}

impl Drop for HLine {
    fn drop(self) {
        let HLine {
            id: _,
            name: _,
            args: _,
        } = self;
    }
}

/// A line `id name args -> method ids`: a task that the method decomposes into the tasks of the lines with these ids, in the
/// method's written order.
pub struct HNode {
    pub line: HLine,
    pub method: Text,
    pub ids: List<u64>,
}

impl Drop for HNode {
    fn drop(self) {
        let HNode {
            line: _,
            method: _,
            ids: _,
        } = self;
    }
}

/// A hierarchical plan: the primitive tasks in the order in which they are executed, the ids of the tasks of the initial
/// network in written order, and the tasks that are decomposed.
pub struct HPlan {
    pub primitives: List<HLine>,
    pub root: List<u64>,
    pub nodes: List<HNode>,
}

impl Drop for HPlan {
    fn drop(self) {
        let HPlan {
            primitives: _,
            root: _,
            nodes: _,
        } = self;
    }
}
