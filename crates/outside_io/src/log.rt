//! The calls that passed. They exist in proofs alone: a `Log` has no bytes, and its functions do nothing at run time.
ghost use Rattle.std.specs.Prelude.{◌≡◌, List, [], ◌∷◌, ◌++◌};
ghost use Rattle.std.specs.Borrow.{ftrue};
ghost use Rattle.outside_io.specs.Calls.{Passed};

use std::marker::Model;

/// All calls, the first one first. Clauses read them as `calls`.
#[derive(Drop)]
pub struct Log {
    pub ghost calls: { List Passed },
}

impl Model for Log {
    ghost also_owns = { λ _. ftrue };
}

/// One call and what it was answered.
#[derive(Clone, Copy, Drop)]
pub enum Call<'a> {
    Got(&'a str, u64, &'a [u8]),
    GotNone(&'a str),
    Stored(&'a str, &'a [u8]),
    Unsure(&'a str, &'a [u8]),
    Wrote(&'a [u8]),
}

impl Log {
    ghost use Rattle.outside_io.specs.Noted.{passed_by};

    /// No call.
    pub fn new() -> Log
        ensures { result.calls ≡ [] }
    {
        Log {}
    }

    /// The calls so far, and then this one.
    pub fn then(&self, _call: &Call<'_>) -> Log
        ensures { result.calls ≡ self.now.calls ++ passed_by _call.now ∷ [] }
    {
        Log {}
    }
}
