ghost use Rattle.std.specs.Prelude.{◌≡◌, IfOk, OnOk};
ghost use Rattle.hddl_bind.specs.ProblemParts as spec;

use crate::actions::enter_alone;
use crate::callables::Callables;
use crate::facts::facts_of;
use crate::methods::Front;
use crate::networks::network_of;
use hddl_reader::RawProblem;
use htn_base::{List, Memory, Name};
use name_binding::{Faults, Known, Places, Variables, formula_of, objects_of, params_of};
use plan_model::{Facts, Formula, MethodSchema, Object};
use std::alloc::Global;

/// What a problem says beyond its domain. `objects` are its own, without the constants; `top` is the method of its initial network.
pub struct ProblemParts {
    pub objects: List<Object>,
    pub init: Facts,
    pub goal: Formula,
    pub top: MethodSchema,
}

impl Drop for ProblemParts {
    fn drop(self) {
        let ProblemParts {
            objects: _,
            init: _,
            goal: _,
            top: _,
        } = self;
    }
}

impl ProblemParts {
    /// The facts, the goal and the top method, without the objects.
    pub(crate) fn behind_objects(self) -> (Facts, Formula, MethodSchema)
        ensures parts { result ≡ (self.init, self.goal, self.top) }
    {
        let ProblemParts {
            objects: _,
            init,
            goal,
            top,
        } = self;
        (init, goal, top)
    }
}

/// What a problem says beyond its domain, where `known` has the objects of both. `name` is the name of the top method and `task` the
/// number of the top task. Faults: 10 in the network, 11, 13 to 17 and 19 to 21.
pub fn parts_of(
    alloc: Global,
    known: &Known,
    callables: &Callables,
    name: Name,
    task: u32,
    p: &RawProblem,
    faults: &mut Faults,
) -> Result<ProblemParts, Memory>
    ensures bound { IfOk result
        (λ parts. parts ≡ spec.parts_bound known.now callables.now name task p.now) }
    ensures faults { OnOk result (spec.ArePartsNoted known.now callables.now p.now
        faults.old.least faults.new.least) }
{
    let objects = objects_of(alloc, &known.types, &p.objects, false, faults)?;
    let init = facts_of(alloc, known, &p.init, faults)?;
    let mut none = Variables::new(alloc);
    let goal = formula_of(alloc, known, &mut none, &p.goal, faults)?;
    let top = top_of(alloc, known, callables, name, task, p, faults)?;
    Ok(ProblemParts {
        objects,
        init,
        goal,
        top,
    })
}

/// The initial network as a method.
fn top_of(
    alloc: Global,
    known: &Known,
    callables: &Callables,
    name: Name,
    task: u32,
    p: &RawProblem,
    faults: &mut Faults,
) -> Result<MethodSchema, Memory>
    ensures bound { IfOk result
        (λ top. top ≡ spec.top_bound known.now callables.now name task p.now) }
    ensures faults { OnOk result (spec.IsTopNoted known.now callables.now p.now
        faults.old.least faults.new.least) }
{
    let mut scope = Variables::new(alloc);
    enter_alone(&mut scope, p.params.as_slice())?;
    let params = params_of(alloc, &known.types, &p.params, faults)?;
    let mut ids = Places::new(alloc);
    let net = network_of(
        alloc,
        callables,
        &known.objects,
        &scope,
        &mut ids,
        &p.net,
        faults,
    )?;
    let front = Front {
        params,
        task,
        task_args: List::new(alloc),
        pre: Formula::And(List::new(alloc)),
    };
    Ok(front.joined(name, net))
}
