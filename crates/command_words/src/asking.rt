use crate::form::PrintedForm;
use crate::level::Level;
use crate::names::Named;
use plan_model::{Checks, Slots, Style};

/// What is asked for.
#[derive(Clone, Copy)]
pub enum Asked<'a> {
    Translation(Translation<'a>),
    Bound(Bounding<'a>),
    Decoding(Decoding<'a>),
    Encoding(Encoding<'a>),
    Validation(Validation<'a>),
    Making(Making<'a>),
    Pruning(Pruning<'a>),
}

/// A translation that is asked for: its files, the numeral of its slots where one is given, the level of
/// a bound that is computed, its form, its style, its checks of preconditions, and its rule for new slots.
#[derive(Clone, Copy)]
pub struct Translation<'a> {
    pub names: Named<'a>,
    pub numeral: Option<&'a str>,
    pub level: Level,
    pub form: PrintedForm,
    pub style: Style,
    pub checks: Checks,
    pub rule: Slots,
}

/// A bound that is asked for: the files that are read, its level, and the checks of preconditions.
#[derive(Clone, Copy)]
pub struct Bounding<'a> {
    pub d: &'a str,
    pub p: &'a str,
    pub level: Level,
    pub checks: Checks,
}

/// A decoding that is asked for: the HDDL domain and problem and the plan, which are read, the numeral of the slots where one is
/// given, the level of a bound that is computed, the form of what was printed, and the checks of preconditions.
#[derive(Clone, Copy)]
pub struct Decoding<'a> {
    pub d: &'a str,
    pub p: &'a str,
    pub plan: &'a str,
    pub numeral: Option<&'a str>,
    pub level: Level,
    pub form: PrintedForm,
    pub checks: Checks,
}

/// An encoding that is asked for: the HDDL domain and problem and the hierarchical plan, which are read, the numeral of the slots where
/// one is given, the form of what is printed, and the checks of preconditions.
#[derive(Clone, Copy)]
pub struct Encoding<'a> {
    pub d: &'a str,
    pub p: &'a str,
    pub hplan: &'a str,
    pub numeral: Option<&'a str>,
    pub form: PrintedForm,
    pub checks: Checks,
}

/// A validation that is asked for: the PDDL domain and problem, and the plan, which are read.
#[derive(Clone, Copy)]
pub struct Validation<'a> {
    pub pd: &'a str,
    pub pp: &'a str,
    pub plan: &'a str,
}

/// A problem that is to be made: the numeral of its packages, and the PDDL domain and problem, which are written.
#[derive(Clone, Copy)]
pub struct Making<'a> {
    pub numeral: &'a str,
    pub od: &'a str,
    pub op: &'a str,
}

/// A pruning that is asked for: its files.
#[derive(Clone, Copy)]
pub struct Pruning<'a> {
    pub names: Named<'a>,
}
