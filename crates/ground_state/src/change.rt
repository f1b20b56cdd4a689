ghost use Rattle.std.specs.Prelude.{OnOk};
ghost use Rattle.ground_state.specs.States as spec;

use crate::atom_list::KeptAtom;
use crate::state::State;
use htn_base::Memory;
use std::alloc::Global;

impl State {
    /// Notes those of the atoms as false of which nothing is noted.
    pub(crate) fn enter(&mut self, alloc: Global, atoms: &[KeptAtom]) -> Result<(), Memory>
        ensures same { spec.IsSame self.old self.new }
        ensures noted { OnOk result (spec.AreNoted atoms.now self.new) }
    {
        for atom in atoms {
            if self.note(atom.predicate(), atom.objects()).is_none() {
                self.insert(alloc, atom.predicate(), atom.objects(), false)?;
            }
        }
        Ok(())
    }

    /// Makes the atoms false.
    pub(crate) fn deny(&mut self, atoms: &[KeptAtom])
        ensures without { spec.Has self.new (spec.WithoutAll self.old atoms.now) }
        ensures noted { spec.KeepsNotes self.old self.new }
    {
        for atom in atoms {
            self.set(atom.predicate(), atom.objects(), false);
        }
    }

    /// Makes the atoms true.
    pub(crate) fn affirm(&mut self, atoms: &[KeptAtom])
        requires { spec.AreNoted atoms.now self.old }
        ensures { spec.Has self.new (spec.WithAll self.old atoms.now) }
    {
        for atom in atoms {
            self.set(atom.predicate(), atom.objects(), true);
        }
    }

    /// Takes away what is noted of those of the atoms that are false, where there are many notes.
    pub(crate) fn forget(&mut self, atoms: &[KeptAtom])
        ensures { spec.IsSame self.old self.new }
    {
        for atom in atoms {
            self.forget_atom(atom.predicate(), atom.objects());
        }
    }
}
