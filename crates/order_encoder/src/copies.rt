ghost use Rattle.std.specs.Prelude.{◌≡◌, ◌<◌, ◌+◌, ◌^◌, ◌++◌, length, take, IfOk, OnOk, OnErr};
ghost use Rattle.order_encoder.specs.NamedOrders as of;
ghost use Rattle.order_encoder.specs.NamedOrders.{copies, Copies, ForVariables};

use crate::order_names::OrderNames;
use crate::pairs::{any_slot_params, before};
use htn_base::{Boxed, List, Memory};
use plan_model::{Effect, Formula, Style, Term};
use std::alloc::Global;

/// The effect that adds, for each pair that leaves the slot of `h`, the same pair for the slot of `child`, a variable below
/// `depth` too. Variables and styles are those of `waiting`.
pub fn copying(
    alloc: Global,
    n: &OrderNames,
    slots: u32,
    style: &Style,
    h: Term,
    child: Term,
    depth: u32,
) -> Result<Effect, Memory>
    requires slots { n.now.first_slot + slots < 2 ^ 32 }
    ensures effect { IfOk result (λ e. e ≡ of.copying n.now slots depth style.now h child) }
    ensures means { ForVariables depth h child (λ i j. IfOk result (Copies n.now slots depth i j)) }
{
    match style {
        Style::Adl => copy_all(alloc, n, h, child, depth),
        Style::Flat => {
            let mut parts = List::new(alloc);
            push_copying(alloc, n, slots, style, h, child, depth, &mut parts)?;
            Ok(Effect::And(parts))
        }
    }
}

/// Puts the parts of this effect at the end: one in style adl, one a slot in style flat. After `Memory` what was there stands in
/// front of some of them.
pub fn push_copying(
    alloc: Global,
    n: &OrderNames,
    slots: u32,
    style: &Style,
    h: Term,
    child: Term,
    depth: u32,
    into: &mut List<Effect>,
) -> Result<(), Memory>
    requires slots { n.now.first_slot + slots < 2 ^ 32 }
    ensures parts { OnOk result
        (into.new ≡ into.old ++ copies n.now slots depth style.now h child) }
    ensures in_front { OnErr result (take (length into.old) into.new ≡ into.old) }
{
    match style {
        Style::Adl => into.put(copy_all(alloc, n, h, child, depth)),
        Style::Flat => {
            for k in 0..slots {
                into.put(copy_one(alloc, n, h, child, Term::Obj(n.first_slot + k)))?;
            }
            Ok(())
        }
    }
}

fn copy_all(
    alloc: Global,
    n: &OrderNames,
    h: Term,
    child: Term,
    depth: u32,
) -> Result<Effect, Memory>
    ensures { IfOk result (λ e. e ≡ of.copy_all n.now depth h child) }
{
    let part = Boxed::new(alloc, copy_one(alloc, n, h, child, Term::Var(depth))?)?;
    Ok(Effect::Forall(any_slot_params(alloc, n)?, part))
}

/// Where the slot of `h` comes before that of `then`, so does the child's.
fn copy_one(
    alloc: Global,
    n: &OrderNames,
    h: Term,
    child: Term,
    then: Term,
) -> Result<Effect, Memory>
    ensures { IfOk result (λ e. e ≡ of.one_copy n.now h child then) }
{
    let adds = Boxed::new(alloc, Effect::Add(before(alloc, n, child, then)?))?;
    Ok(Effect::When(Formula::Holds(before(alloc, n, h, then)?), adds))
}
