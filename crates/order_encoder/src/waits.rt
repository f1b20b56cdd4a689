ghost use Rattle.std.specs.Prelude.{ℕ, ◌≡◌, ◌<◌, ◌+◌, ◌^◌, ◌++◌, length, take, IfOk, OnOk, OnErr};
ghost use Rattle.plan_model.specs.declared.terms.Term.TheVariants.{Var};
ghost use Rattle.order_encoder.specs.NamedOrders as of;
ghost use Rattle.order_encoder.specs.NamedOrders.{waits, Waits};

use crate::order_names::OrderNames;
use crate::pairs::{any_slot_params, before};
use htn_base::{Boxed, List, Memory};
use plan_model::{Formula, Style, Term};
use std::alloc::Global;

/// The condition that no slot comes before that of `h`, a variable below `depth`, the number of variables in force. In
/// style adl a slot is quantified, as variable `depth`; in style flat it is a conjunction of one part a slot.
pub fn waiting(
    alloc: Global,
    n: &OrderNames,
    slots: u32,
    style: &Style,
    h: Term,
    depth: u32,
) -> Result<Formula, Memory>
    requires slots { n.now.first_slot + slots < 2 ^ 32 }
    ensures formula { IfOk result (λ f. f ≡ of.waiting n.now slots depth style.now h) }
    ensures means { (i : ℕ) → h ≡ Var i → i < depth → IfOk result (Waits n.now slots depth i) }
{
    match style {
        Style::Adl => wait_for_all(alloc, n, h, depth),
        Style::Flat => {
            let mut parts = List::new(alloc);
            push_waiting(alloc, n, slots, style, h, depth, &mut parts)?;
            Ok(Formula::And(parts))
        }
    }
}

/// Puts the parts of this condition at the end: one in style adl, one a slot in style flat. After `Memory` what was there stands in
/// front of some of them.
pub fn push_waiting(
    alloc: Global,
    n: &OrderNames,
    slots: u32,
    style: &Style,
    h: Term,
    depth: u32,
    into: &mut List<Formula>,
) -> Result<(), Memory>
    requires slots { n.now.first_slot + slots < 2 ^ 32 }
    ensures parts { OnOk result (into.new ≡ into.old ++ waits n.now slots depth style.now h) }
    ensures in_front { OnErr result (take (length into.old) into.new ≡ into.old) }
{
    match style {
        Style::Adl => into.put(wait_for_all(alloc, n, h, depth)),
        Style::Flat => {
            for k in 0..slots {
                into.put(comes_not_before(alloc, n, Term::Obj(n.first_slot + k), h))?;
            }
            Ok(())
        }
    }
}

fn wait_for_all(alloc: Global, n: &OrderNames, h: Term, depth: u32) -> Result<Formula, Memory>
    ensures { IfOk result (λ f. f ≡ of.wait_for_all n.now depth h) }
{
    let part = Boxed::new(alloc, comes_not_before(alloc, n, Term::Var(depth), h)?)?;
    Ok(Formula::Forall(any_slot_params(alloc, n)?, part))
}

fn comes_not_before(alloc: Global, n: &OrderNames, first: Term, h: Term) -> Result<Formula, Memory>
    ensures { IfOk result (λ f. f ≡ of.one_wait n.now first h) }
{
    let pair = Formula::Holds(before(alloc, n, first, h)?);
    Ok(Formula::Not(Boxed::new(alloc, pair)?))
}
