use hplan_text::HPlan;
use htn_base::Text;

/// A made problem of Transport, as two HDDL texts, and a hierarchical plan of it.
pub struct Made {
    pub domain: Text,
    pub problem: Text,
    pub plan: HPlan,
}

impl Drop for Made {
    fn drop(self) {
        let Made {
            domain: _,
            problem: _,
            plan: _,
        } = self;
    }
}
