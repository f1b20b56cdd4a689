ghost use Rattle.std.specs.Prelude.{◌≡◌, MatchOption};
ghost use Rattle.ground_state.specs.Runs.{texts};
ghost use Rattle.step_reader.specs.Arguments as spec;
ghost use Rattle.step_reader.specs.Cells as cells;

use plan_model::{Compiled, Param};
use problem_index::PrintedName;

/// The parameters for which a step of the printed action names an object each.
pub(crate) fn params_of(c: &Compiled, name: PrintedName) -> &[Param]
    ensures { result.now ≡ spec.params_of c.now name }
{
    match name {
        PrintedName::Action(a) => match c.hddl.actions.get(a as usize) {
            Some(action) => action.params.as_slice(),
            None => &[],
        },
        PrintedName::Check(m) | PrintedName::Method(m) => match c.methods.get(m as usize) {
            Some(plan) => plan.schema.params.as_slice(),
            None => &[],
        },
    }
}

/// How many children come in the place of what a step of the printed action takes.
pub(crate) fn children_at(c: &Compiled, name: PrintedName) -> usize
    ensures { result ≡ cells.children_at c.now name }
{
    match name {
        PrintedName::Action(_) | PrintedName::Check(_) => 0,
        PrintedName::Method(m) => match c.methods.get(m as usize) {
            Some(plan) => plan.schema.children.len(),
            None => 0,
        },
    }
}

/// How many new slots a step of the printed action names: one for each child other than the heir, which is one of them.
pub(crate) fn new_slots(c: &Compiled, name: PrintedName) -> usize
    ensures { result ≡ spec.new_slots c.now name }
{
    match name {
        PrintedName::Action(_) | PrintedName::Check(_) => 0,
        PrintedName::Method(m) => match c.methods.get(m as usize) {
            Some(plan) => plan.schema.children.len().saturating_sub(1),
            None => 0,
        },
    }
}

/// The arguments of a step: its slot, its new slots, and its objects.
#[derive(Clone, Copy)]
pub(crate) struct Parts<'a> {
    pub slot: &'a [u8],
    pub new: &'a [&'a [u8]],
    pub objects: &'a [&'a [u8]],
}

impl<'a> Parts<'a> {
    /// The parts of these arguments, of which so many are new slots. `None` where there are too few.
    pub(crate) fn of(args: &'a [&'a [u8]], many: usize) -> Option<Parts<'a>>
        ensures { MatchOption result (spec.AreTooFew (texts args.now) many) (spec.AreParts (texts args.now) many) }
    {
        let (slot, others) = args.split_first()?;
        if others.len() < many {
            return None;
        }
        let (new, objects) = others.split_at(many);
        Some(Parts {
            slot: *slot,
            new,
            objects,
        })
    }
}
