ghost use Rattle.std.specs.Prelude.{◌≡◌, [], IfOk, OnOk};
ghost use Rattle.std.specs.Option.{option_copied};
ghost use Rattle.htn_base.specs.Table.{with_word};
ghost use Rattle.name_binding.specs.Spots.{noted};
ghost use Rattle.name_binding.specs.Parents.{pairs_in_order};
ghost use Rattle.name_binding.specs.Unions.{AreWith, IsThere};
ghost use Rattle.name_binding.specs.Kinds.{type_number, type_faults, union_number, kind_by, members_written, kind_bound, kind_faults};

use crate::faults::Faults;
use crate::first_seen::FirstSeen;
use crate::parents::parents_of;
use crate::places::Places;
use crate::terms::found_or_noted;
use crate::union_table::{UnionTable, listed};
use crate::unions::Either;
use gd_reader::{RawParams, RawTerm};
use htn_base::{List, Memory, number};
use plan_model::Parent;
use std::alloc::Global;
use std::marker::Model;

/// The names of types in the order of their numbers, `object` first, and the unions, each the list of its types' numbers. Contracts
/// see the numbers of the names.
pub struct TypeTable {
    types: Places,
    unions: UnionTable,
}

impl Drop for TypeTable {
    fn drop(self) {
        let TypeTable {
            types: _,
            unions: _,
        } = self;
    }
}

impl Model for TypeTable {
    ghost use Rattle.name_binding.specs.Kinds.{Kinds};

    ghost Value = { Kinds };

    ghost view = { λ table. record { types = table.types; unions = table.unions } };
}

impl TypeTable {
    /// These types, and no unions yet.
    pub fn new(alloc: Global, types: Places) -> TypeTable
        ensures types { result.types ≡ types }
        ensures unions { result.unions ≡ [] }
    {
        TypeTable {
            types,
            unions: UnionTable::new(alloc),
        }
    }

    /// The numbers of the names of the types, `object` first.
    pub fn numbers(&self) -> &[u32]
        ensures numbers { result.now ≡ self.now.types }
    {
        self.types.numbers()
    }

    /// The pairs of types and parents of a section of these types.
    pub fn parents_of(&self, alloc: Global, listed: &RawParams) -> Result<List<Parent>, Memory>
        ensures pairs { IfOk result
            (λ pairs. pairs ≡ pairs_in_order self.now.types listed.now) }
    {
        parents_of(alloc, &self.types, listed)
    }

    /// The unions, each the list of its types' numbers.
    pub fn unions_of(&self, alloc: Global) -> Result<List<List<u32>>, Memory>
        ensures unions { IfOk result (λ unions. unions ≡ self.now.unions) }
    {
        let mut lists = List::new(alloc);
        for members in self.unions.as_slice() {
            lists.put(listed(alloc, members.as_slice()))?;
        }
        Ok(lists)
    }

    /// The number of a type as it is written: 0 where none is, the type's own where there is one, and where there are two or more
    /// different ones that of their union, behind those of the types. Each name that no type has is a fault of code 11.
    pub fn kind_of(
        &self,
        alloc: Global,
        types: &[RawTerm],
        faults: &mut Faults,
    ) -> Result<u32, Memory>
        ensures bound { IfOk result (λ kind. kind ≡ kind_bound self.now types.now) }
        ensures faults { OnOk result
            (faults.new.least ≡ noted faults.old.least (kind_faults self.now types.now)) }
    {
        match types {
            [] => Ok(0),
            [only] => Ok(self.number_of(*only, faults)),
            _ => {
                let members = self.members_of(alloc, types, faults)?;
                self.number_by(members.as_slice())
            }
        }
    }

    /// The number of the type of this name.
    fn number_of(&self, written: RawTerm, faults: &mut Faults) -> u32
        ensures number { result ≡ type_number self.now written }
        ensures faults { faults.new.least ≡ noted faults.old.least (type_faults self.now written) }
    {
        found_or_noted(self.types.get(written.name), 11, written.at, faults)
    }

    /// The numbers of the written types, each once.
    fn members_of(
        &self,
        alloc: Global,
        types: &[RawTerm],
        faults: &mut Faults,
    ) -> Result<FirstSeen, Memory>
        ensures members { IfOk result (λ members. members ≡ members_written self.now types.now) }
        ensures faults { OnOk result
            (faults.new.least ≡ noted faults.old.least (kind_faults self.now types.now)) }
    {
        let mut members = FirstSeen::new(alloc);
        for written in types {
            members.put(self.number_of(*written, faults))?;
        }
        Ok(members)
    }

    /// Puts unions to the others by the offsets of their first words, each once. After `Memory` some may be there.
    pub fn add_unions(&mut self, alloc: Global, mut found: Vec<Either>) -> Result<(), Memory>
        ensures unions { OnOk result (AreWith found.items self.old.unions self.new.unions) }
        ensures types { self.new.types ≡ self.old.types }
    {
        found.sort_by_key(|either| either.at)?;
        let mut before = None;
        for either in found.as_slice() {
            self.add_behind(alloc, before, either.members.as_slice())?;
            before = Some(either);
        }
        Ok(())
    }

    /// Puts a union behind the others, unless it is there, as the one before it is.
    fn add_behind(
        &mut self,
        alloc: Global,
        before: Option<&Either>,
        members: &[u32],
    ) -> Result<(), Memory>
        requires there { IsThere self.old.unions (option_copied before) }
        ensures union { OnOk result (self.new.unions ≡ with_word self.old.unions members.now) }
        ensures types { self.new.types ≡ self.old.types }
    {
        match before {
            Some(either) if either.members.as_slice() == members => Ok(()),
            _ => self.unions.put(alloc, members),
        }
    }

    /// The numbers of the written types, each once. Nothing is noted.
    pub fn members(&self, alloc: Global, types: &[RawTerm]) -> Result<List<u32>, Memory>
        ensures members { IfOk result (λ members. members ≡ members_written self.now types.now) }
    {
        let mut faults = Faults::new();
        let members = self.members_of(alloc, types, &mut faults)?;
        listed(alloc, members.as_slice())
    }

    /// The number of what has these types.
    fn number_by(&self, members: &[u32]) -> Result<u32, Memory>
        ensures number { IfOk result (λ number. number ≡ kind_by self.now members.now) }
    {
        match members {
            [] => Ok(0),
            [only] => Ok(*only),
            _ => self.union_number(members),
        }
    }

    /// The number of the union of these types.
    fn union_number(&self, members: &[u32]) -> Result<u32, Memory>
        ensures number { IfOk result (λ number. number ≡ union_number self.now members.now) }
    {
        match self.unions.place(members) {
            Some(place) => {
                let past_types = number(self.types.len().saturating_add(place as usize))?;
                Ok(past_types)
            }
            None => Ok(0),
        }
    }
}
