ghost use Rattle.std.specs.Prelude.{◌≡◌, IfOk};

use crate::callables::Callable;
use htn_base::{List, Memory, Name};
use name_binding::Places;
use std::alloc::Global;
use std::marker::Model;

/// Tasks, or actions, by their names. Contracts see them in text order.
pub(crate) struct Callees {
    places: Places,
    callables: List<Callable>,
}

impl Drop for Callees {
    fn drop(self) {
        let Callees {
            places: _,
            callables: _,
        } = self;
    }
}

impl Model for Callees {
    ghost use Rattle.std.specs.Prelude.{List as Items, map, ◌≡◌};
    ghost use Rattle.hddl_bind.specs.declared.callables.Callable.{Callable as Called};
    ghost use Rattle.hddl_bind.specs.Callables.{number};

    ghost Value = { Items Called };

    ghost view = { λ callees. callees.callables };

    ghost invariant = { λ callees. callees.places ≡ map number callees.callables };
}

impl Callees {
    ghost use Rattle.hddl_bind.specs.Callables.{first_called};

    pub(crate) fn new(alloc: Global, callables: List<Callable>) -> Result<Callees, Memory>
        ensures same { IfOk result (λ callees. callees ≡ callables) }
    {
        let mut places = Places::new(alloc);
        for callable in callables.as_slice() {
            places.declare(callable.name)?;
        }
        Ok(Callees { places, callables })
    }

    /// All of them, in text order.
    pub(crate) fn as_slice(&self) -> &[Callable]
        ensures same { result.now ≡ self.now }
    {
        self.callables.as_slice()
    }

    /// The first with this name.
    pub(crate) fn get(&self, name: Name) -> Option<Callable>
        ensures first { result ≡ first_called name.number self.now }
    {
        match self.places.get(name) {
            Some(place) => self.callables.get(place as usize).copied(),
            None => None,
        }
    }
}
