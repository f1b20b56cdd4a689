ghost use Rattle.std.specs.Prelude.{◌≡◌, ◌<◌, ◌≤◌, ◌↔◌, Some, length, IsTrue};
ghost use Rattle.htn_base.specs.Limits.{most_steps};
ghost use Rattle.plan_model.specs.task_networks.Tree.{used};
ghost use Rattle.tree_core.specs.Labels.{growths_of, label_of, Decomposition};
ghost use Rattle.tree_core.specs.Rooms.{found};
ghost use Rattle.tree_core.specs.Growing.{AreChildren, IsLeast, least_of};

use crate::children::Children;
use crate::growth::Growth;
use crate::label::Label;

// The first place at which something is wrong with the growths, or `None` where they are joined.
pub(crate) fn first_defect(steps: &[Growth], children: &Children) -> Option<u32>
    requires few { length steps.now ≤ most_steps }
    requires children { AreChildren (growths_of steps.now) children.now }
    ensures { IsLeast (growths_of steps.now) (λ l. l < length steps.now) result }
{
    let mut least = None;
    for place in 0..steps.len() {
        least = earlier(least, defect_at(steps, children, place));
    }
    least
}

// The first place at which the growth shows that something is wrong.
fn defect_at(steps: &[Growth], children: &Children, place: usize) -> Option<u32>
    requires few { length steps.now ≤ most_steps }
    requires children { AreChildren (growths_of steps.now) children.now }
    requires place { place < length steps.now }
    ensures { IsLeast (growths_of steps.now) (λ l. l ≡ place) result }
{
    let growth = &steps[place];
    let Some(parent) = growth.parent else {
        return if place == 0 { None } else { Some(place as u32) };
    };
    let up = parent as usize;
    if up >= place {
        return Some(place as u32);
    }
    let child = growth.child;
    if child > 0 && children.at(parent, child - 1).is_none() {
        return Some(parent);
    }
    if is_first(children, parent, child, place) && is_abstract(&steps[up].label) {
        None
    } else {
        Some(place as u32)
    }
}

// Whether the growth at the place is the first with this parent and child number.
fn is_first(children: &Children, parent: u32, child: u32, place: usize) -> bool
    ensures { IsTrue result ↔ (found children.now parent child ≡ Some place) }
{
    match children.at(parent, child) {
        Some(first) => first as usize == place,
        None => false,
    }
}

// Whether it is the label of a task that is decomposed.

fn is_abstract(label: &Label) -> bool
    ensures { IsTrue result ↔ ((m : Decomposition) × (label_of label.now ≡ used m)) }
{
    match label {
        Label::Primitive { action: _, args: _ } => false,
        Label::Check { method: _, args: _ } => false,
        Label::Abstract {
            task: _,
            args: _,
            method: _,
            method_args: _,
        } => true,
    }
}

// The lesser of two places, of which either may be none.
fn earlier(one: Option<u32>, other: Option<u32>) -> Option<u32>
    ensures { result ≡ least_of one other }
{
    match (one, other) {
        (Some(k), Some(l)) => Some(k.min(l)),
        (Some(k), None) => Some(k),
        (None, l) => l,
    }
}
