use plan_model::Checks;

/// A problem of `data/`: its name, a number of slots, and the modes of preconditions.
#[derive(Clone, Copy)]
pub struct Row {
    pub name: &'static str,
    pub slots: u32,
    pub modes: &'static [Checks],
}

/// For a problem in which each precondition is tested by a leaf of its own.
const LEAF: &[Checks] = &[Checks::Leaf];

const BOTH: &[Checks] = &[Checks::AtOnce, Checks::Leaf];

/// All rows in the order in which they are printed.
pub const ROWS: &[Row] = &[
    Row {
        name: "all-objects",
        slots: 1,
        modes: LEAF,
    },
    Row {
        name: "formulas",
        slots: 5,
        modes: BOTH,
    },
    Row {
        name: "guard",
        slots: 1,
        modes: LEAF,
    },
    Row {
        name: "late-check",
        slots: 3,
        modes: BOTH,
    },
    Row {
        name: "names",
        slots: 2,
        modes: LEAF,
    },
    Row {
        name: "smallest",
        slots: 1,
        modes: LEAF,
    },
    Row {
        name: "smallest",
        slots: 2,
        modes: LEAF,
    },
    Row {
        name: "tail-recursion",
        slots: 2,
        modes: LEAF,
    },
    Row {
        name: "transport",
        slots: 15,
        modes: BOTH,
    },
    Row {
        name: "union",
        slots: 1,
        modes: LEAF,
    },
    Row {
        name: "waiting",
        slots: 3,
        modes: LEAF,
    },
];
