use htn_base::List;

/// The latest gap of each node of a tree, and the first values with which it stands there, both by the addresses of nodes.
///
/// The values are those of the method that the node asks for: of a check its parent's, of a method without a check its own. Of other
/// nodes they say nothing.
pub struct Stands {
    pub gaps: List<u32>,
    pub values: List<List<u32>>,
}

impl Drop for Stands {
    fn drop(self) {
        let Stands { gaps: _, values: _ } = self;
    }
}
