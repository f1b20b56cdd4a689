ghost use Rattle.std.specs.Prelude.{◌≡◌, ◌<◌, ◌^◌, ℕ, length};
ghost use Rattle.plan_model.specs.declared.types.Types.{Types};
ghost use Rattle.problem_index.specs.Domains as spec;

use htn_base::List;
use plan_model::{Object, Parts};

/// The objects of one type: these, or of all objects those whose declared type is one of the parts.
#[derive(Clone, Copy)]
pub enum Domain<'a> {
    Listed(&'a [u32]),
    Among(&'a List<Object>, &'a Parts),
}

impl<'a> Domain<'a> {
    /// Those of all objects whose declared type is one of the parts.
    pub fn among(objects: &'a List<Object>, parts: &'a Parts) -> Domain<'a>
        requires few { length objects.now < 2 ^ 32 }
        ensures { (types : Types) (ty : ℕ) → spec.ArePartsOf types ty parts.now → spec.IsDomainOf types objects.now ty result }
    {
        Domain::Among(objects, parts)
    }

    /// The number of places. An object of the type stands at each of those of a list, and at some of the others.
    #[inline(always)]
    pub fn len(&self) -> usize
        ensures { result ≡ spec.places self.now }
    {
        match self {
            Domain::Listed(listed) => listed.len(),
            Domain::Among(objects, _) => objects.len(),
        }
    }

    /// The object at the place, where one of the type stands there.
    #[inline(always)]
    pub fn at(&self, place: usize) -> Option<u32>
        ensures { result ≡ spec.at self.now place }
    {
        match self {
            Domain::Listed(listed) => match listed.get(place) {
                Some(object) => Some(*object),
                None => None,
            },
            Domain::Among(objects, parts) => match objects.get(place) {
                Some(declared) => {
                    if parts.have(declared.ty) && place < 1 << 32 {
                        return Some(place as u32);
                    }
                    None
                }
                None => None,
            },
        }
    }
}
