ghost use Rattle.std.specs.Prelude.{◌≡◌, IfOk};

use htn_base::{List, Memory, Name};
use std::alloc::Global;

/// What stands for an object: `Var(k)` is the k-th variable in force, the schema's parameters first and then
/// those of the quantifiers from outside in; `Obj(x)` is the object of number x.
#[derive(Clone, Copy, PartialEq)]
pub enum Term {
    Var(u32),
    Obj(u32),
}

/// A variable with its type.
#[derive(Clone, Copy)]
pub struct Param {
    pub name: Name,
    pub ty: u32,
}

/// A predicate with terms, as many as it has parameters.
pub struct Atom {
    pub predicate: u32,
    pub args: List<Term>,
}

impl Drop for Atom {
    fn drop(self) {
        let Atom {
            predicate: _,
            args: _,
        } = self;
    }
}

impl Atom {
    /// An equal atom.
    pub fn copy(&self, alloc: Global) -> Result<Atom, Memory>
        ensures equal { IfOk result (λ copy. copy ≡ self.now) }
    {
        Ok(Atom {
            predicate: self.predicate,
            args: self.args.copy(alloc)?,
        })
    }
}

/// A predicate with objects, as many as it has parameters.
pub struct GroundAtom {
    pub predicate: u32,
    pub args: List<u32>,
}

impl Drop for GroundAtom {
    fn drop(self) {
        let GroundAtom {
            predicate: _,
            args: _,
        } = self;
    }
}
