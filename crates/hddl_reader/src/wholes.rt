ghost use Rattle.std.specs.Prelude.{◌≡◌};
ghost use Rattle.hddl_reader.specs.Sections.{or_none, or_true, head_of, network_of, action_of, method_of};

use crate::networks::RawNet;
use crate::parts::RawParts;
use crate::sections::{RawAction, RawHead, RawMethod};
use gd_reader::{RawEffect, RawFormula, RawParams, RawTerm};
use htn_base::List;
use std::alloc::Global;

pub(crate) fn or_none<T>(alloc: Global, list: Option<List<T>>) -> List<T>
    ensures { result ≡ or_none list }
{
    match list {
        None => List::new(alloc),
        Some(list) => list,
    }
}

pub(crate) fn params_or_none(alloc: Global, params: Option<RawParams>) -> RawParams
    ensures { result ≡ or_none params }
{
    match params {
        None => RawParams::new(alloc),
        Some(params) => params,
    }
}

pub(crate) fn or_true(alloc: Global, formula: Option<RawFormula>) -> RawFormula
    ensures { result ≡ or_true formula }
{
    match formula {
        None => RawFormula::And(List::new(alloc)),
        Some(formula) => formula,
    }
}

// Where a part is left over, it goes by a call of its own.
impl RawParts {
    /// A declared name with these parameters.
    pub(crate) fn into_head(mut self, alloc: Global, name: RawTerm) -> RawHead
        ensures { result ≡ head_of name self }
    {
        let params = params_or_none(alloc, self.params.take());
        drop(self);
        RawHead { name, params }
    }

    /// An action of this name with these parts.
    pub(crate) fn into_action(mut self, alloc: Global, name: RawTerm) -> RawAction
        ensures { result ≡ action_of name self }
    {
        let pre = or_true(alloc, self.pre.take());
        let nothing = RawEffect::And(List::new(alloc));
        let eff = self.eff.take().unwrap_or(nothing);
        let head = self.into_head(alloc, name);
        RawAction { head, pre, eff }
    }

    /// A method of this name with these parts, where its task is among them.
    pub(crate) fn into_method(mut self, alloc: Global, name: RawTerm) -> Option<RawMethod>
        ensures { result ≡ method_of name self }
    {
        match self.task.take() {
            None => {
                drop(self);
                None
            }
            Some(task) => {
                let pre = or_true(alloc, self.pre.take());
                let (params, net) = self.into_network(alloc);
                Some(RawMethod {
                    head: RawHead { name, params },
                    task,
                    pre,
                    net,
                })
            }
        }
    }

    /// The parameters and the network of these parts.
    pub(crate) fn into_network(mut self, alloc: Global) -> (RawParams, RawNet)
        ensures { result ≡ (or_none self.params, network_of self) }
    {
        let ordered = self.ordered;
        let params = params_or_none(alloc, self.params.take());
        let subs = or_none(alloc, self.subs.take());
        let pairs = or_none(alloc, self.pairs.take());
        let constraints = or_none(alloc, self.constraints.take());
        drop(self);
        let net = RawNet {
            subs,
            ordered,
            pairs,
            constraints,
        };
        (params, net)
    }
}
