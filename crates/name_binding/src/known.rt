use crate::heads::Heads;
use crate::places::Places;
use crate::table::TypeTable;

/// The names that are declared for formulas and effects: objects, predicates with their numbers of parameters, and types.
pub struct Known {
    pub objects: Places,
    pub predicates: Heads,
    pub types: TypeTable,
}

impl Drop for Known {
    fn drop(self) {
        let Known {
            objects: _,
            predicates: _,
            types: _,
        } = self;
    }
}
