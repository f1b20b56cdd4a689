use crate::form::PrintedForm;
use crate::level::Level;
use plan_model::{Checks, Slots, Style};

/// What the words of the command line ask for. Files are named by their words.
#[derive(Clone, Copy)]
pub enum Command<'a> {
    /// Read the HDDL domain `d` and problem `p`, and write the PDDL domain `od` and problem `op`.
    Translate {
        d: &'a str,
        p: &'a str,
        od: &'a str,
        op: &'a str,
        bound: Option<&'a str>,
        level: Level,
        form: PrintedForm,
        style: Style,
        checks: Checks,
        slots: Slots,
    },
    /// Read the HDDL domain `d` and problem `p`, and print their bound.
    Bound {
        d: &'a str,
        p: &'a str,
        level: Level,
        checks: Checks,
    },
    /// Read the HDDL domain `d` and problem `p`, and print the decomposition tree that the plan in `plan` spells.
    Decode {
        d: &'a str,
        p: &'a str,
        plan: &'a str,
        bound: Option<&'a str>,
        level: Level,
        form: PrintedForm,
        checks: Checks,
    },
    /// Read the HDDL domain `d` and problem `p`, and print the steps of the latest schedule of the hierarchical plan in `hplan`.
    Encode {
        d: &'a str,
        p: &'a str,
        hplan: &'a str,
        bound: Option<&'a str>,
        form: PrintedForm,
        checks: Checks,
    },
    /// Read the PDDL domain `pd` and problem `pp`, and tell whether the list in `plan` is a plan
    /// of them.
    Validate {
        pd: &'a str,
        pp: &'a str,
        plan: &'a str,
    },
    /// Make a problem of `k` packages, and write the PDDL domain `od` and problem `op`.
    Make {
        k: u32,
        od: &'a str,
        op: &'a str,
    },
    /// Read the HDDL domain `d` and problem `p`, and write the HDDL domain `od` and problem `op` without what no solution uses.
    Prune {
        d: &'a str,
        p: &'a str,
        od: &'a str,
        op: &'a str,
    },
}
