ghost use Rattle.std.specs.Prelude.{◌≡◌, [], IfOk};

use crate::term::RawTerm;
use htn_base::{List, Memory};
use std::alloc::Global;
use std::marker::Model;
use std::rc::Rc;

/// The types that are written for a word: none, one, or those of a union. The words of a list that have them
/// in common keep them once. Contracts see them as a list.
pub struct RawTypes {
    kept: Option<Rc<List<RawTerm>>>,
}

impl Drop for RawTypes {
    fn drop(self) {
        let RawTypes { kept: _ } = self;
    }
}

impl Model for RawTypes {
    ghost use Rattle.std.specs.Prelude.{List as Items, []};
    ghost use Rattle.std.specs.Option.{option_map_or};
    ghost use Rattle.gd_reader.specs.declared.term.RawTerm.{RawTerm};

    ghost Value = { Items RawTerm };

    ghost view = { λ types. option_map_or (λ rc. rc.value) types.kept [] };
}

impl RawTypes {
    /// No types. They take no memory.
    pub fn none() -> RawTypes
        ensures none { result ≡ [] }
    {
        RawTypes { kept: None }
    }

    /// These types.
    pub fn new(alloc: Global, types: List<RawTerm>) -> Result<RawTypes, Memory>
        ensures types { IfOk result (λ kept. kept ≡ types) }
    {
        let kept = Rc::new(alloc, types)?;
        Ok(RawTypes { kept: Some(kept) })
    }

    /// The same types for one more word. They aren't copied.
    pub fn share(&self) -> Result<RawTypes, Memory>
        ensures same { IfOk result (λ shared. shared ≡ self.now) }
    {
        match &self.kept {
            None => Ok(RawTypes::none()),
            Some(types) => {
                let types = types.clone()?;
                Ok(RawTypes { kept: Some(types) })
            }
        }
    }

    /// The types in order.
    pub fn as_slice(&self) -> &[RawTerm]
        ensures types { result.now ≡ self.now }
    {
        match &self.kept {
            None => &[],
            Some(types) => types.as_slice(),
        }
    }
}
