ghost use Rattle.std.specs.Prelude.{ℕ, ◌≡◌, ◌≢◌, ◌↔◌, IsTrue};
ghost use Rattle.plan_model.specs.declared.networks.Head.TheVariants.{Check};
ghost use Rattle.plan_model.specs.plan_meaning.Network.{child_of, IsDeclared};
ghost use Rattle.value_choices.specs.Settled.{Settles};
ghost use Rattle.value_choices.specs.Worlds.{IsWorldOf};
ghost use Rattle.value_choices.specs.DeclaredParams.{work_of};
ghost use Rattle.method_fits.specs.Subtasks as spec;

use crate::subtask::Subtask;
use plan_model::{Child, Compiled, Head};
use problem_index::World;
use value_choices::{bind_terms, is_declared};

/// Whether it is the check of a method's precondition.
fn is_check(head: Head) -> bool
    ensures { IsTrue result ↔ (head ≡ Check) }
{
    match head {
        Head::Check => true,
        Head::Task(_) | Head::Action(_) => false,
    }
}

/// The child, which is no check, is this subtask: what is known of the values then. `false` where it can't be.
fn bind_child(
    world: &World<'_>,
    c: &Compiled,
    child: &Child,
    head: Head,
    objects: &[u32],
    known: &mut [Option<u32>],
) -> bool
    requires world { IsWorldOf c.now world.now }
    requires no_check { child.now.head ≢ Check }
    ensures { (m : ℕ) → Settles (λ values. (work_of head objects.now ≡ child_of (spec.with_values m values) child.now)
        × IsDeclared c.now (work_of head objects.now)) known.old known.new result }
{
    if child.head != head {
        return false;
    }
    if !is_declared(world, c, head, objects) {
        return false;
    }
    bind_terms(child.args.as_slice(), objects, known)
}

/// The children are these subtasks in order, but for the check: what is known of the values then. `false` where they can't be.
pub(crate) fn bind_children(
    world: &World<'_>,
    c: &Compiled,
    children: &[Child],
    said: &[Subtask<'_>],
    known: &mut [Option<u32>],
) -> bool
    requires world { IsWorldOf c.now world.now }
    ensures { (m : ℕ) → Settles
        (λ values. spec.AreWorksOf c.now (spec.with_values m values) children.now (spec.said_works said.now)) known.old known.new result }
{
    let mut place: usize = 0;
    for child in children {
        if !is_check(child.head) {
            let Some(subtask) = said.get(place) else {
                return false;
            };
            if !bind_child(world, c, child, subtask.head, subtask.objects, known) {
                return false;
            }
            place += 1;
        }
    }
    place == said.len()
}
