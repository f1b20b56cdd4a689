ghost use Rattle.std.specs.Prelude.{◌≡◌, MatchOption};
ghost use Rattle.htn_cli.specs.Faults.{IsNoLimit, limit_code};
ghost use Rattle.htn_cli.specs.Stops.{IsRefusalOf};

use crate::refusal::{Limit, Refusal};

/// A place in a text: the word of its file, and the offset in bytes from 0.
#[derive(Clone, Copy)]
pub struct Place<'a> {
    pub name: &'a str,
    pub at: u32,
}

/// What is counted in a text. Past its limit the text has a fault.
#[derive(Clone, Copy)]
pub enum Counted {
    /// The lists that are open at once: 200.
    Depth,
    /// The subtasks of one network: 4,096.
    Subtasks,
    /// The types of a domain beside `object`: 1,000.
    Types,
}

/// What is counted, where a fault with this code is a limit.
fn limit_of(code: u16) -> Option<Counted>
    ensures { MatchOption result (IsNoLimit code) (λ counted. code ≡ limit_code counted) }
{
    match code {
        4 => Some(Counted::Depth),
        21 => Some(Counted::Subtasks),
        22 => Some(Counted::Types),
        _ => None,
    }
}

/// The refusal of a text with this fault at this place.
pub(crate) fn refusal_for<'a>(place: Place<'a>, code: u16) -> Refusal<'a>
    ensures { IsRefusalOf place.entry code result }
{
    match limit_of(code) {
        Some(counted) => Refusal::Limit(Limit::Text(counted, place)),
        None => Refusal::Fault(place, code),
    }
}
