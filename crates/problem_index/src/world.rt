ghost use Rattle.std.specs.Prelude.{◌↔◌, IsTrue, IfSome};
ghost use Rattle.plan_model.specs.Typing.{InType};
ghost use Rattle.problem_index.specs.Domains.{IsDomainOf};
ghost use Rattle.problem_index.specs.Kinds.{IsWorld};

use crate::domain::Domain;
use crate::kinds::Kinds;
use htn_base::List;
use plan_model::{Object, Types, in_type};

/// What formulas and effects speak of: the types, the objects and, where it has been found, what is known of the types.
#[derive(Clone, Copy)]
pub struct World<'a> {
    pub types: &'a Types,
    pub objects: &'a List<Object>,
    pub kinds: Option<&'a Kinds>,
}

impl<'a> World<'a> {
    /// What a quantifier over the type goes over, where that is known.
    #[inline(always)]
    pub fn domain(&self, ty: u32) -> Option<Domain<'a>>
        requires world { IsWorld self.now }
        ensures { IfSome result (IsDomainOf self.now.types.now self.now.objects.now ty) }
    {
        match self.kinds {
            Some(kinds) => kinds.domain(self.types, self.objects, ty),
            None => None,
        }
    }

    /// Whether the object of this number is in the type.
    #[inline(always)]
    pub fn has(&self, object: u32, ty: u32) -> bool
        requires world { IsWorld self.now }
        ensures { IsTrue result ↔ InType self.now.types.now self.now.objects.now object ty }
    {
        match self.kinds {
            Some(kinds) => kinds.have(self.types, self.objects, object, ty),
            None => in_type(self.types, self.objects, object, ty),
        }
    }
}
