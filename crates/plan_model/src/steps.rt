use htn_base::{List, Text};

/// A step of a classical plan, by its words: the action's name and its arguments.
pub struct GroundAction {
    pub name: Text,
    pub args: List<Text>,
}

impl Drop for GroundAction {
    fn drop(self) {
        let GroundAction { name: _, args: _ } = self;
    }
}
