ghost use Rattle.std.specs.Prelude.{◌≡◌, ◌<◌, ◌^◌, length, OnOk, OnErr};
ghost use Rattle.plan_model.specs.Parts.{AreListed};
ghost use Rattle.problem_index.specs.Kinds.{IsWorld};
ghost use Rattle.ground_state.specs.Frames.{frame};
ghost use Rattle.ground_state.specs.Room.{EffectFits};
ghost use Rattle.ground_state.specs.States.{IsSame};
ghost use Rattle.ground_state.specs.Clauses.{After, AfterInWorld};

use crate::atom_list::AtomLists;
use crate::env::Env;
use crate::gather::gather;
use crate::passes::Pass;
use crate::plain::is_plain;
use crate::state::State;
use htn_base::{List, Memory};
use plan_model::{Effect, Object, Types};
use problem_index::World;
use std::alloc::Global;
use std::mem;

impl State {
    /// Goes to the state after the effect, where the environment has the objects of the variables in force: each
    /// condition is tested in the old state, and an add wins over a delete. After `Memory` the state is as it was. A
    /// quantifier goes past all objects; in a `Run` it goes over those of its type.
    pub fn apply<'a>(
        &mut self,
        alloc: Global,
        types: &'a Types,
        objects: &'a List<Object>,
        eff: &Effect,
        env: &mut Env,
    ) -> Result<(), Memory>
        requires listed { AreListed types.now }
        requires few { length objects.now < 2 ^ 32 }
        requires room { EffectFits (frame env.old) eff.now }
        ensures after { OnOk result (After types.now objects.now self.old eff.now env.old self.new) }
        ensures unchanged { OnErr result (IsSame self.old self.new) }
        ensures kept { frame env.new ≡ frame env.old }
    {
        let world = World {
            types,
            objects,
            kinds: None,
        };
        self.apply_in(alloc, &world, eff, env)
    }

    /// The same, in a world, where a quantifier goes over the objects of its type. Of an effect without conditions no lists are made.
    pub fn apply_in(
        &mut self,
        alloc: Global,
        world: &World<'_>,
        eff: &Effect,
        env: &mut Env,
    ) -> Result<(), Memory>
        requires world { IsWorld world.now }
        requires room { EffectFits (frame env.old) eff.now }
        ensures after { OnOk result
            (AfterInWorld world.now self.old eff.now env.old self.new) }
        ensures unchanged { OnErr result (IsSame self.old self.new) }
        ensures kept { frame env.new ≡ frame env.old }
    {
        if is_plain(eff, env) {
            self.pass_over(Pass::Enter, alloc, eff, env, world)?;
            self.pass_over(Pass::Deny, alloc, eff, env, world)?;
            self.pass_over(Pass::Affirm, alloc, eff, env, world)?;
            if !self.crowded {
                return Ok(());
            }
            return self.pass_over(Pass::Forget, alloc, eff, env, world);
        }
        let mut lists = mem::replace(&mut self.touched, AtomLists::new(alloc));
        let stepped = self.step(alloc, world, eff, env, &mut lists);
        self.touched = lists;
        stepped
    }

    /// The same, where what the effect adds and deletes is put into these lists. What needs memory comes first, so that
    /// after `Memory` the state is as it was.
    fn step(
        &mut self,
        alloc: Global,
        world: &World<'_>,
        eff: &Effect,
        env: &mut Env,
        lists: &mut AtomLists,
    ) -> Result<(), Memory>
        requires world { IsWorld world.now }
        requires room { EffectFits (frame env.old) eff.now }
        ensures after { OnOk result
            (AfterInWorld world.now self.old eff.now env.old self.new) }
        ensures unchanged { OnErr result (IsSame self.old self.new) }
        ensures kept { frame env.new ≡ frame env.old }
    {
        lists.adds.clear();
        lists.deletes.clear();
        gather(alloc, eff, env, self, world, lists)?;
        let (adds, deletes) = (lists.adds.as_slice(), lists.deletes.as_slice());
        if let Err(memory) = self.enter(alloc, adds) {
            self.forget(adds);
            return Err(memory);
        }
        self.deny(deletes);
        self.affirm(adds);
        self.forget(deletes);
        Ok(())
    }
}
