ghost use Rattle.std.specs.Prelude.{◌≡◌, ◌++◌, [], length, map, IfOk, IsTrue};
ghost use Rattle.gd_reader.specs.TypedLists.{with_type};
ghost use Rattle.gd_reader.specs.TypedAsBefore.{IsTypedAsBefore};

use crate::raw_types::RawTypes;
use crate::typed_lists::RawParam;
use htn_base::{List, Memory};
use std::alloc::Global;
use std::marker::Model;

/// The words of a typed list in order. Those behind which one type is written have it in common, and
/// each of them but the first is marked as typed as the word before it. Contracts see the list of the
/// words.
pub struct RawParams {
    words: List<RawParam>,
    as_before: List<bool>,
}

impl Drop for RawParams {
    fn drop(self) {
        let RawParams {
            words: _,
            as_before: _,
        } = self;
    }
}

impl Model for RawParams {
    ghost use Rattle.std.specs.Prelude.{List as Items};
    ghost use Rattle.gd_reader.specs.declared.typed_lists.RawParam.{RawParam as Word};
    ghost use Rattle.gd_reader.specs.TypedAsBefore.{AreMarked};

    ghost Value = { Items Word };

    ghost view = { λ params. params.words };

    ghost invariant = { λ params. AreMarked params.words params.as_before };
}

impl RawParams {
    /// No words. They take no memory.
    pub fn new(alloc: Global) -> RawParams
        ensures none { result ≡ [] }
    {
        RawParams {
            words: List::new(alloc),
            as_before: List::new(alloc),
        }
    }

    /// These words behind the others, all with these types.
    pub(crate) fn with_words(
        self,
        words: &List<RawParam>,
        types: RawTypes,
    ) -> Result<RawParams, Memory>
        ensures words { IfOk result
            (λ params. params ≡ self ++ map (with_type types) words.now) }
    {
        let RawParams {
            words: mut all,
            mut as_before,
        } = self;
        let mut is_behind = false;
        for word in words.as_slice() {
            all.push(RawParam {
                name: word.name,
                ty: types.share()?,
                at: word.at,
            })?;
            as_before.push(is_behind)?;
            is_behind = true;
        }
        Ok(RawParams {
            words: all,
            as_before,
        })
    }

    /// The words in order.
    pub fn as_slice(&self) -> &[RawParam]
        ensures words { result.now ≡ self.now }
    {
        self.words.as_slice()
    }

    /// How many words there are.
    pub fn len(&self) -> usize
        ensures length { result ≡ length self.now }
    {
        self.words.len()
    }

    /// Whether word `i` is marked as typed as the word before it. One that isn't may have the same types too.
    pub fn is_typed_as_before(&self, i: usize) -> bool
        ensures typed { IsTrue result → IsTypedAsBefore self.now i }
    {
        match self.as_before.get(i) {
            Some(marked) => *marked,
            None => false,
        }
    }
}
