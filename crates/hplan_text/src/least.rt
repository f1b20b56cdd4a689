ghost use Rattle.std.specs.Prelude.{List, ◌++◌, MatchBool};
ghost use Rattle.text_forms.specs.Faults.{Fault, IsBefore};
ghost use Rattle.hplan_text.specs.LeastOf.{as_fault, faults_unless, IsLeastOf};

/// A fault that was found: its place and its code.
#[derive(Clone, Copy)]
pub(crate) struct Found {
    pub(crate) at: u32,
    pub(crate) code: u16,
}

// Whether the one fault comes before the other, or both are alike.
fn is_before(x: Found, y: Found) -> bool
    ensures { MatchBool result (IsBefore (as_fault x) (as_fault y)) (IsBefore (as_fault y) (as_fault x)) }
{
    if x.at == y.at {
        return x.code <= y.code;
    }
    x.at < y.at
}

/// The lesser of the least faults of two lists, by place, then by code.
pub(crate) fn least(a: Option<Found>, b: Option<Found>) -> Option<Found>
    ensures { (fs gs : List Fault) → IsLeastOf a fs → IsLeastOf b gs → IsLeastOf result (fs ++ gs) }
{
    match a {
        None => b,
        Some(x) => match b {
            None => a,
            Some(y) => if is_before(x, y) { a } else { b },
        },
    }
}

/// The least fault with one more behind it, unless all is well there.
pub(crate) fn least_unless(found: Option<Found>, well: bool, at: u32, code: u16) -> Option<Found>
    ensures { (fs : List Fault) → IsLeastOf found fs → IsLeastOf result (fs ++ faults_unless well code at) }
{
    if well {
        found
    } else {
        least(found, Some(Found { at, code }))
    }
}
