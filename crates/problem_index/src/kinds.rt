ghost use Rattle.std.specs.Prelude.{List as Items, ◌<◌, ◌^◌, ◌↔◌, length, IsTrue, IfSome, IfOk};
ghost use Rattle.plan_model.specs.declared.types.Object.{Object as object};
ghost use Rattle.plan_model.specs.Typing.{InType};
ghost use Rattle.plan_model.specs.Parts.{AreListed};
ghost use Rattle.problem_index.specs.Domains.{IsDomainOf};
ghost use Rattle.problem_index.specs.Kinds as spec;

use crate::by_type::{by_type, listed, size};
use crate::domain::Domain;
use htn_base::{List, Memory};
use plan_model::{Object, Parts, Types, in_type};
use std::alloc::Global;

/// The parts of this many types are kept. All named types are among them.
const MOST_KINDS: usize = 4096;

/// All lists together have at most so many entries for each object, and `MORE_ENTRIES` beside, so that they take memory
/// linear in the number of objects. A type whose list does not fit has none, and a quantifier over it goes past all objects.
const ENTRIES: usize = 16;

const MORE_ENTRIES: usize = 1 << 16;

/// What is known of a type: its parts and, where they are listed, its objects.
pub struct Kind {
    parts: Parts,
    listed: Option<Vec<u32>>,
}

impl Drop for Kind {
    fn drop(self) {
        let Kind {
            parts: _,
            listed: _,
        } = self;
    }
}

impl Kind {
    /// What is known of the type that has these parts. Its objects are listed where there is room for so many entries;
    /// `by_type` has all objects by their declared types, where each is declared of one.
    fn new(
        alloc: Global,
        parts: Parts,
        by_type: Option<&[List<u32>]>,
        room: &mut usize,
    ) -> Result<Kind, Memory>
        requires few { IfSome by_type (λ lists. length lists.now < 2 ^ 32) }
        ensures { IfOk result (λ kind. (objects : Items object)
            → IfSome by_type.entry (λ lists. spec.AreByType objects lists.now) → spec.IsKind objects parts kind) }
    {
        if let Some(lists) = by_type {
            let entries = size(&parts, lists);
            if entries <= *room {
                *room -= entries;
                let listed = Some(listed(alloc, &parts, lists, entries)?);
                return Ok(Kind { parts, listed });
            }
        }
        Ok(Kind {
            parts,
            listed: None,
        })
    }
}

/// What is known of the first types and unions, of each found once.
pub struct Kinds {
    kinds: Vec<Kind>,
}

impl Drop for Kinds {
    fn drop(self) {
        let Kinds { kinds: _ } = self;
    }
}

impl Kinds {
    /// Finds the parts of each of the types, and its objects.
    pub fn new(alloc: Global, types: &Types, objects: &List<Object>) -> Result<Kinds, Memory>
        requires listed { AreListed types.now }
        requires few { length objects.now < 2 ^ 32 }
        ensures kinds { IfOk result (spec.AreKinds types.now objects.now) }
    {
        match by_type(alloc, objects, types.names.len())? {
            Some(lists) => Kinds::of(alloc, types, objects, Some(lists.as_slice())),
            None => Kinds::of(alloc, types, objects, None),
        }
    }

    /// The same, where all objects have been put by their declared types.
    fn of(
        alloc: Global,
        types: &Types,
        objects: &List<Object>,
        by_type: Option<&[List<u32>]>,
    ) -> Result<Kinds, Memory>
        requires listed { AreListed types.now }
        requires few { IfSome by_type (λ lists. length lists.now < 2 ^ 32) }
        requires lists { IfSome by_type (λ lists. spec.AreByType objects.now lists.now) }
        ensures kinds { IfOk result (spec.AreKinds types.now objects.now) }
    {
        let count = types.names.len().saturating_add(types.unions.len());
        let mut room = objects
            .len()
            .saturating_mul(ENTRIES)
            .saturating_add(MORE_ENTRIES);
        let mut kinds = Vec::new(alloc);
        for ty in 0..count.min(MOST_KINDS) {
            let parts = Parts::new(types, ty as u32);
            let kind = Kind::new(alloc, parts, by_type, &mut room)?;
            kinds.push(kind)?;
        }
        Ok(Kinds { kinds })
    }

    /// Whether the object of this number is in the type.
    #[inline(always)]
    pub(crate) fn have(&self, types: &Types, objects: &List<Object>, object: u32, ty: u32) -> bool
        requires listed { AreListed types.now }
        requires kinds { spec.AreKinds types.now objects.now self.now }
        ensures { IsTrue result ↔ InType types.now objects.now object ty }
    {
        match self.kinds.get(ty as usize) {
            Some(kind) => match objects.get(object as usize) {
                Some(declared) => kind.parts.have(declared.ty),
                None => false,
            },
            None => in_type(types, objects, object, ty),
        }
    }

    /// What a quantifier over the type goes over, where the type is one of those that are known.
    #[inline(always)]
    pub(crate) fn domain<'a>(
        &'a self,
        types: &Types,
        objects: &'a List<Object>,
        ty: u32,
    ) -> Option<Domain<'a>>
        requires few { length objects.now < 2 ^ 32 }
        requires kinds { spec.AreKinds types.now objects.now self.now }
        ensures { IfSome result (IsDomainOf types.now objects.now ty) }
    {
        match self.kinds.get(ty as usize) {
            Some(kind) => match &kind.listed {
                Some(listed) => Some(Domain::Listed(listed.as_slice())),
                None => Some(Domain::Among(objects, &kind.parts)),
            },
            None => None,
        }
    }
}
