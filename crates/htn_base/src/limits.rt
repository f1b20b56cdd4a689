//! The limits of the translator, each number once. The definitions in `specs/Limits` are the same numbers.

/// The bytes of an input text: 16 MiB.
pub const LONGEST_INPUT: usize = 16_777_216;

/// The lists of a text that are open at once.
pub const DEEPEST: usize = 200;

/// The subtasks of a task network.
pub const MOST_SUBTASKS: usize = 4_096;

/// The types of an HDDL text beside `object`.
pub const MOST_TYPES: u32 = 1_000;

/// The types of a PDDL text beside `object`: the translation adds two to those of its HDDL text.
pub const MOST_PDDL_TYPES: u32 = 1_002;

/// The slots of a translation.
pub const MOST_SLOTS: u128 = 65_536;

/// The steps of a plan to be validated.
pub const MOST_STEPS: u32 = 1_000_000;

/// The lines of a hierarchical plan that have an id.
pub const MOST_LINES: u32 = 499_999;

/// The bytes of a text that is written: 256 MiB.
pub const LONGEST_OUTPUT: u64 = 268_435_456;
