ghost use Rattle.std.specs.Prelude.{◌≡◌, ◌↔◌, IsTrue};
ghost use Rattle.std.specs.Option.{option_copied};
ghost use Rattle.plan_model.specs.Parts.{AreListed};

use crate::parts::Parts;
use htn_base::{List, Name};

/// One written pair of a type and its parent.
#[derive(Clone, Copy, PartialEq)]
pub struct Parent {
    pub child: u32,
    pub parent: u32,
}

/// The types. Type 0 is `object`, of which every type is a part; the others follow in the order in which they are
/// first named. `parents` has each written pair once, by the child's number and then in text order, and a type
/// without a written parent has the one pair with type 0.
///
/// Union k of `unions` is the type of number `names.len() + k`: an object is in it that is in one of its types.
pub struct Types {
    pub names: List<Name>,
    pub parents: List<Parent>,
    pub unions: List<List<u32>>,
}

impl Drop for Types {
    fn drop(self) {
        let Types {
            names: _,
            parents: _,
            unions: _,
        } = self;
    }
}

impl Types {
    ghost use Rattle.plan_model.specs.Typing as typing;

    /// Whether the type is a part of the other one. Both may be unions, and a number past all types is a part of itself
    /// and of `object` alone.
    pub fn is_a(&self, ty: u32, of: u32) -> bool
        requires { AreListed self.now }
        ensures { IsTrue result ↔ typing.IsA self.now ty of }
    {
        let parts = Parts::new(self, of);
        match self.union_at(ty) {
            Some(members) => parts.have_all(members.as_slice()),
            None => parts.have(ty),
        }
    }

    /// The types of the union of this number, or `None` where it is no union.
    pub fn union_at(&self, ty: u32) -> Option<&List<u32>>
        ensures { option_copied result ≡ typing.union_at self.now ty }
    {
        let place = (ty as usize).checked_sub(self.names.len())?;
        self.unions.get(place)
    }
}

/// An object with its declared type; a constant is declared in the domain.
#[derive(Clone, Copy)]
pub struct Object {
    pub name: Name,
    pub ty: u32,
    pub constant: bool,
}
