ghost use Rattle.std.specs.Prelude.{◌≡◌, [], length, IfOk};

use htn_base::{List, Memory};
use std::alloc::Global;
use std::marker::Model;
use std::rc::Rc;

/// The numbers of a union's types. The words that have a union in common keep them once. Contracts see them as a list.
pub struct Members {
    kept: Option<Rc<List<u32>>>,
}

impl Drop for Members {
    fn drop(self) {
        let Members { kept: _ } = self;
    }
}

impl Model for Members {
    ghost use Rattle.std.specs.Prelude.{ℕ, List as Items, []};
    ghost use Rattle.std.specs.Option.{option_map_or};

    ghost Value = { Items ℕ };

    ghost view = { λ members. option_map_or (λ rc. rc.value) members.kept [] };
}

impl Members {
    /// No numbers. They take no memory.
    pub(crate) fn none() -> Members
        ensures none { result ≡ [] }
    {
        Members { kept: None }
    }

    /// These numbers.
    pub(crate) fn new(alloc: Global, members: List<u32>) -> Result<Members, Memory>
        ensures members { IfOk result (λ kept. kept ≡ members) }
    {
        let kept = Rc::new(alloc, members)?;
        Ok(Members { kept: Some(kept) })
    }

    /// The same numbers for one more word. They aren't copied.
    pub(crate) fn share(&self) -> Result<Members, Memory>
        ensures same { IfOk result (λ shared. shared ≡ self.now) }
    {
        match &self.kept {
            None => Ok(Members::none()),
            Some(members) => {
                let members = members.clone()?;
                Ok(Members {
                    kept: Some(members),
                })
            }
        }
    }

    /// The numbers in order.
    pub fn as_slice(&self) -> &[u32]
        ensures members { result.now ≡ self.now }
    {
        match &self.kept {
            None => &[],
            Some(members) => members.as_slice(),
        }
    }

    /// How many types the union has.
    pub fn len(&self) -> usize
        ensures length { result ≡ length self.now }
    {
        self.as_slice().len()
    }
}
