ghost use Rattle.std.specs.Prelude.{◌↔◌, IsTrue, Contains};
ghost use Rattle.plan_model.specs.Parts.{AreListed};
ghost use Rattle.live_parts.specs.Live.{TypeOf, EachSo, OneSo, HasEmptyType};
ghost use Rattle.hddl_prune.specs.Search.{HasObject, MayBeSoOver};

use crate::marks::Marks;
use htn_base::List;
use plan_model::{Formula, Hddl, Param, Parts};

/// Whether the formula may be so, where these predicates are live.
#[cycle(may_be_so)]
pub(crate) fn may_be_so(h: &Hddl, live: &Marks, f: &Formula) -> bool
    requires listed { AreListed h.now.types }
    ensures { IsTrue result ↔ MayBeSoOver h.now live.now f.now }
{
    match f {
        Formula::Holds(atom) => live.has(atom.predicate),
        Formula::Equal(_, _) => true,
        Formula::Not(_) => true,
        Formula::And(parts) => all_may(h, live, parts),
        Formula::Or(parts) => one_may(h, live, parts),
        Formula::Imply(_, _) => true,
        Formula::Forall(params, body) => {
            may_be_so(h, live, body.get()) || has_empty_type(h, params.as_slice())
        }
        Formula::Exists(_, body) => may_be_so(h, live, body.get()),
    }
}

#[cycle(may_be_so)]
fn all_may(h: &Hddl, live: &Marks, formulas: &List<Formula>) -> bool
    requires listed { AreListed h.now.types }
    ensures { IsTrue result ↔ EachSo (MayBeSoOver h.now live.now) formulas.now }
{
    let parts = formulas.as_slice();
    for part in parts {
        if !may_be_so(h, live, part) {
            return false;
        }
    }
    true
}

#[cycle(may_be_so)]
fn one_may(h: &Hddl, live: &Marks, formulas: &List<Formula>) -> bool
    requires listed { AreListed h.now.types }
    ensures { IsTrue result ↔ OneSo (MayBeSoOver h.now live.now) formulas.now }
{
    let parts = formulas.as_slice();
    for part in parts {
        if may_be_so(h, live, part) {
            return true;
        }
    }
    false
}

/// Whether no object is in the type of one of the variables.
fn has_empty_type(h: &Hddl, params: &[Param]) -> bool
    requires listed { AreListed h.now.types }
    ensures { IsTrue result ↔ HasEmptyType (TypeOf h.now) params.now }
{
    for param in params {
        if !has_object(h, param) {
            return true;
        }
    }
    false
}

/// Whether an object is in the type of the variable, which may be a union.
fn has_object(h: &Hddl, param: &Param) -> bool
    requires listed { AreListed h.now.types }
    ensures { IsTrue result ↔ HasObject h.now param.now.ty }
{
    let parts = Parts::new(&h.types, param.ty);
    h.objects
        .as_slice()
        .iter()
        .any(|object| parts.have(object.ty))
}
