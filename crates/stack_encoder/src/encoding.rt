ghost use Rattle.std.specs.Prelude.{◌≡◌, ◌<◌, length, IfOk};
ghost use Rattle.plan_model.specs.Parts.{AreListed};
ghost use Rattle.plan_model.specs.declared.options.Style.TheVariants.{Adl};
ghost use Rattle.slot_encoding.specs.slot_declarations.Frames.{IsFrame};
ghost use Rattle.stack_encoder.specs.Made as made;

use crate::declarations::declared;
use crate::initial::{goal_of, initial_of};
use crate::methods::stack_method;
use crate::words::words_of;
use crate::works::{stack_action, stack_check};
use htn_base::{List, Memory, NameTable};
use plan_model::{ActionSchema, Compiled, Pddl, Style};
use slot_encoding::slot_declarations::{Basis, Frame, basis_of, renamed};
use std::alloc::Global;

/// The printed problem with cells 0 to `cells`, ready to be taken part by part: `head` has all but the actions, with all words, and
/// `action` makes one action at a time.
#[derive(Drop)]
pub struct StackEncoding {
    pub head: Pddl,
    pub cells: u32,
    // finds the words of the head
    names: NameTable,
    basis: Basis,
}

impl StackEncoding {
    ghost use Rattle.std.specs.Prelude.{Some, slice_get};
    ghost use Rattle.stack_encoder.specs.Heads.{IsStackEncoding, all_actions};

    /// That of a compiled problem. The source's types are few and their parents and unions are listed.
    pub(crate) fn new(alloc: Global, c: &Compiled, cells: u32) -> Result<StackEncoding, Memory>
        requires listed { AreListed c.now.hddl.types }
        ensures encoding { IfOk result (IsStackEncoding c.now) }
        ensures cells { IfOk result (λ e. e.cells ≡ cells) }
    {
        let names = words_of(alloc, c, cells)?;
        let basis = basis_of(alloc, c, &names, cells)?;
        let frame = Frame {
            compiled: c,
            printed: &names,
            slots: cells,
            style: Style::Adl,
            basis: &basis,
        };
        match head_of(alloc, &frame) {
            Ok(head) => Ok(StackEncoding {
                head,
                cells,
                names,
                basis,
            }),
            Err(memory) => {
                drop(names);
                drop(basis);
                Err(memory)
            }
        }
    }

    /// How many actions there are.
    pub(crate) fn count(&self, c: &Compiled) -> u32
        requires encoding { IsStackEncoding c.now self.now }
        ensures count { result ≡ length (all_actions c.now self.now) }
    {
        (c.methods.len() + self.basis.checks.methods.len() + c.hddl.actions.len()) as u32
    }

    /// Action `k`, from 0: those of the methods come first, the top method's before all, then those of the checks, then the source's.
    pub(crate) fn action(&self, alloc: Global, c: &Compiled, k: u32) -> Result<ActionSchema, Memory>
        requires encoding { IsStackEncoding c.now self.now }
        requires some { k < length (all_actions c.now self.now) }
        ensures action { IfOk result (λ a. slice_get (all_actions c.now self.now) k ≡ Some a) }
    {
        let frame = Frame {
            compiled: c,
            printed: &self.names,
            slots: self.cells,
            style: Style::Adl,
            basis: &self.basis,
        };
        let methods = c.methods.len() as u32;
        let checks = self.basis.checks.methods.len() as u32;
        if k < methods {
            stack_method(alloc, &frame, k)
        } else if k - methods < checks {
            stack_check(alloc, &frame, k - methods)
        } else {
            let a = k - methods - checks;
            let action = &c.hddl.actions.as_slice()[a as usize];
            stack_action(alloc, &frame, a, action)
        }
    }
}

/// All of the printed problem but its actions.
fn head_of(alloc: Global, frame: &Frame<'_>) -> Result<Pddl, Memory>
    requires frame { IsFrame frame.now }
    requires adl { frame.now.style ≡ Adl }
    requires listed { AreListed frame.now.compiled.now.hddl.types }
    ensures { IfOk result (made.IsHead frame.now) }
{
    let hddl = &frame.compiled.hddl;
    let names = frame.printed.to_list(alloc)?;
    let init = initial_of(alloc, frame)?;
    let goal = goal_of(alloc, frame)?;
    let declarations = declared(alloc, frame)?;
    Ok(Pddl {
        names,
        domain: renamed(frame, hddl.domain),
        problem: renamed(frame, hddl.problem),
        types: declarations.types,
        objects: declarations.objects,
        predicates: declarations.predicates,
        actions: List::new(alloc),
        init,
        goal,
    })
}
