ghost use Rattle.std.specs.Prelude.{ℕ, ◌≡◌, ◌<◌, ◌+◌, ◌^◌, ◌++◌, length, take, IfOk, OnOk, OnErr};
ghost use Rattle.plan_model.specs.declared.terms.Term.TheVariants.{Var};
ghost use Rattle.order_encoder.specs.NamedOrders as of;
ghost use Rattle.order_encoder.specs.NamedOrders.{clears, Clears};

use crate::order_names::OrderNames;
use crate::pairs::{any_slot_params, before};
use htn_base::{Boxed, List, Memory};
use plan_model::{Effect, Style, Term};
use std::alloc::Global;

/// The effect that deletes all pairs that leave the slot of `h`. Variables and styles are those of `waiting`.
pub fn clearing(
    alloc: Global,
    n: &OrderNames,
    slots: u32,
    style: &Style,
    h: Term,
    depth: u32,
) -> Result<Effect, Memory>
    requires slots { n.now.first_slot + slots < 2 ^ 32 }
    ensures effect { IfOk result (λ e. e ≡ of.clearing n.now slots depth style.now h) }
    ensures means { (i : ℕ) → h ≡ Var i → i < depth → IfOk result (Clears n.now slots depth i) }
{
    match style {
        Style::Adl => clear_all(alloc, n, h, depth),
        Style::Flat => {
            let mut parts = List::new(alloc);
            push_clearing(alloc, n, slots, style, h, depth, &mut parts)?;
            Ok(Effect::And(parts))
        }
    }
}

/// Puts the parts of this effect at the end: one in style adl, one a slot in style flat. After `Memory` what was there stands in
/// front of some of them.
pub fn push_clearing(
    alloc: Global,
    n: &OrderNames,
    slots: u32,
    style: &Style,
    h: Term,
    depth: u32,
    into: &mut List<Effect>,
) -> Result<(), Memory>
    requires slots { n.now.first_slot + slots < 2 ^ 32 }
    ensures parts { OnOk result (into.new ≡ into.old ++ clears n.now slots depth style.now h) }
    ensures in_front { OnErr result (take (length into.old) into.new ≡ into.old) }
{
    match style {
        Style::Adl => into.put(clear_all(alloc, n, h, depth)),
        Style::Flat => {
            for k in 0..slots {
                into.put(clear_one(alloc, n, h, Term::Obj(n.first_slot + k)))?;
            }
            Ok(())
        }
    }
}

fn clear_all(alloc: Global, n: &OrderNames, h: Term, depth: u32) -> Result<Effect, Memory>
    ensures { IfOk result (λ e. e ≡ of.clear_all n.now depth h) }
{
    let part = Boxed::new(alloc, clear_one(alloc, n, h, Term::Var(depth))?)?;
    Ok(Effect::Forall(any_slot_params(alloc, n)?, part))
}

/// The slot of `h` comes before that of `then` no more.
fn clear_one(alloc: Global, n: &OrderNames, h: Term, then: Term) -> Result<Effect, Memory>
    ensures { IfOk result (λ e. e ≡ of.one_clear n.now h then) }
{
    Ok(Effect::Delete(before(alloc, n, h, then)?))
}
