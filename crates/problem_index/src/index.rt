ghost use Rattle.std.specs.Prelude.{◌≡◌, ◌<◌, ◌^◌, length, map, IfOk};
ghost use Rattle.std.specs.Option.{option_copied};
ghost use Rattle.plan_model.specs.declared.schemas.ActionSchema.{ActionSchema as action};
ghost use Rattle.plan_model.specs.declared.values.Pddl.{Pddl as problem};
ghost use Rattle.plan_model.specs.Parts.{AreListed};
ghost use Rattle.problem_index.specs.Kinds.{AreKinds, IsWorld};
ghost use Rattle.problem_index.specs.Places.{IsThePlace};
ghost use Rattle.problem_index.specs.Index as spec;

use crate::kinds::Kinds;
use crate::places::Places;
use crate::words::Words;
use crate::world::World;
use htn_base::{List, Memory, NameTable};
use plan_model::{ActionSchema, Object, Pddl, Types};
use std::alloc::Global;

/// Where the actions and the objects of a problem stand, by their words, and what is known of its types.
pub struct Index {
    words: Words,
    actions: Places,
    objects: Places,
    kinds: Kinds,
}

impl Drop for Index {
    fn drop(self) {
        let Index {
            words: _,
            actions: _,
            objects: _,
            kinds: _,
        } = self;
    }
}

impl Index {
    /// The index of the problem.
    pub fn new(alloc: Global, p: &Pddl) -> Result<Index, Memory>
        requires listed { AreListed p.now.types }
        requires few_objects { length p.now.objects < 2 ^ 32 }
        requires few_actions { length p.now.actions < 2 ^ 32 }
        ensures index { IfOk result (spec.IsIndex p.now) }
    {
        let names = NameTable::of(alloc, &p.names)?;
        Index::over(alloc, names, &p.types, &p.objects, &p.actions)
    }

    /// The index of these types, objects and actions, whose names are numbers of the table. The words by which they are found
    /// are those of the table: those of a source problem, or the printed ones.
    pub fn over(
        alloc: Global,
        names: NameTable,
        types: &Types,
        objects: &List<Object>,
        actions: &List<ActionSchema>,
    ) -> Result<Index, Memory>
        requires listed { AreListed types.now }
        requires few_objects { length objects.now < 2 ^ 32 }
        requires few_actions { length actions.now < 2 ^ 32 }
        ensures index { IfOk result (spec.IsIndexOf names types.now objects.now actions.now) }
    {
        let words = Words::of(alloc, names)?;
        let actions = Places::of(alloc, words.len(), actions.as_slice())?;
        let places = Places::of(alloc, words.len(), objects.as_slice())?;
        let kinds = Kinds::new(alloc, types, objects)?;
        Ok(Index {
            words,
            actions,
            objects: places,
            kinds,
        })
    }

    /// The words by which things are found.
    pub fn words(&self) -> &Words
        ensures { result.now ≡ self.now.words }
    {
        &self.words
    }

    /// The place of the action that has the word, among the actions.
    pub fn action_place(&self, word: &[u8]) -> Option<u32>
        ensures { (p : problem) → spec.IsIndex p self.now
            → IsThePlace p.names (map (λ (a : action). a.name) p.actions) word.now result }
    {
        self.actions.find(&self.words, word)
    }

    /// The action that has the name.
    pub fn action<'p>(&self, p: &'p Pddl, name: &[u8]) -> Option<&'p ActionSchema>
        requires index { spec.IsIndex p.now self.now }
        ensures { spec.HasTheName p.now name.now (option_copied result) }
    {
        let place = self.action_place(name)?;
        p.actions.get(place as usize)
    }

    /// The object that has the word, where it is in the type.
    #[inline(always)]
    pub fn object(&self, world: &World<'_>, word: &[u8], ty: u32) -> Option<u32>
        requires world { IsWorld world.now }
        ensures { (p : problem) → spec.AreOf p self.now world.now → spec.IsTheArgument p word.now ty result }
    {
        let object = self.objects.find(&self.words, word)?;
        if world.has(object, ty) {
            return Some(object);
        }
        None
    }

    /// The types and the objects, with what is known of the types.
    #[inline(always)]
    pub fn world<'a>(&'a self, types: &'a Types, objects: &'a List<Object>) -> World<'a>
        requires listed { AreListed types.now }
        requires few { length objects.now < 2 ^ 32 }
        requires kinds { AreKinds types.now objects.now self.now.kinds }
        ensures world { IsWorld result }
        ensures types { result.types.now ≡ types.now }
        ensures objects { result.objects.now ≡ objects.now }
    {
        World {
            types,
            objects,
            kinds: Some(&self.kinds),
        }
    }
}
