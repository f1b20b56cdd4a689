ghost use Rattle.std.specs.Prelude.{◌≡◌, ◌↔◌, [], Contains, OnOk};
ghost use Rattle.plan_model.specs.declared.terms.GroundAtom.{GroundAtom};
ghost use Rattle.plan_model.specs.plan_meaning.Truth.{Adds};
ghost use Rattle.problem_index.specs.Kinds.{IsWorld};
ghost use Rattle.ground_state.specs.Frames.{frame};
ghost use Rattle.ground_state.specs.Room.{EffectFits};
ghost use Rattle.ground_state.specs.States.{atoms};
ghost use Rattle.ground_state.specs.Clauses.{IsInType};

use crate::atom_list::{AtomList, AtomLists, KeptAtom};
use crate::env::Env;
use crate::gather::gather;
use crate::state::State;
use htn_base::Memory;
use plan_model::Effect;
use problem_index::World;
use std::alloc::Global;
use std::marker::Model;

/// The atoms that an effect adds in a state. Its room serves one effect after another.
pub struct Additions {
    lists: AtomLists,
}

impl Drop for Additions {
    fn drop(self) {
        let Additions { lists: _ } = self;
    }
}

impl Model for Additions {
    ghost use Rattle.std.specs.Prelude.{List};
    ghost use Rattle.plan_model.specs.declared.terms.GroundAtom.{GroundAtom as ground_atom};

    ghost Value = { List ground_atom };

    ghost view = { λ additions. additions.lists.adds };
}

impl Additions {
    /// No atoms. It takes no memory yet.
    pub fn new(alloc: Global) -> Additions
        ensures { result ≡ [] }
    {
        Additions {
            lists: AtomLists {
                adds: AtomList::new(alloc),
                deletes: AtomList::new(alloc),
            },
        }
    }

    /// Puts what the effect adds in place of what was there, where the environment has the objects of the variables in force. `s`: the
    /// state before it.
    pub fn gather(
        &mut self,
        alloc: Global,
        eff: &Effect,
        env: &mut Env,
        s: &State,
        world: &World<'_>,
    ) -> Result<(), Memory>
        requires world { IsWorld world.now }
        requires room { EffectFits (frame env.old) eff.now }
        ensures gathered { OnOk result ((g : GroundAtom) → Contains self.new g
            ↔ Adds (IsInType world.now) (atoms s.now) eff.now (frame env.old).objects g) }
        ensures kept { frame env.new ≡ frame env.old }
    {
        self.lists.adds.clear();
        self.lists.deletes.clear();
        gather(alloc, eff, env, s, world, &mut self.lists)
    }

    /// All atoms in order.
    pub fn as_slice(&self) -> &[KeptAtom]
        ensures { result.now ≡ self.now }
    {
        self.lists.adds.as_slice()
    }
}
