ghost use Rattle.std.specs.Prelude.{OnOk};
ghost use Rattle.live_parts.specs.Live.{AddsOf, OneSo};
ghost use Rattle.hddl_prune.specs.Places.{HasAlso};

use crate::marks::Marks;
use htn_base::{List, Memory};
use plan_model::Effect;

/// Marks the predicates of which the effect adds an atom.
#[cycle(mark_added)]
pub(crate) fn mark_added(effect: &Effect, live: &mut Marks) -> Result<(), Memory>
    ensures { OnOk result (HasAlso live.old (AddsOf effect.now) live.new) }
{
    match effect {
        Effect::Add(atom) => live.mark(atom.predicate),
        Effect::Delete(_) => Ok(()),
        Effect::And(parts) => mark_all_added(parts, live),
        Effect::Forall(_, body) => mark_added(body.get(), live),
        Effect::When(_, body) => mark_added(body.get(), live),
    }
}

#[cycle(mark_added)]
fn mark_all_added(effects: &List<Effect>, live: &mut Marks) -> Result<(), Memory>
    ensures { OnOk result (HasAlso live.old (λ p. OneSo (λ e. AddsOf e p) effects.now) live.new) }
{
    let parts = effects.as_slice();
    for part in parts {
        mark_added(part, live)?;
    }
    Ok(())
}
