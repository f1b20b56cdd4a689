ghost use Rattle.std.specs.Prelude.{◌≡◌, ◌<◌, ◌^◌, length, IfOk};
ghost use Rattle.plan_model.specs.Parts.{AreListed};
ghost use Rattle.slot_encoding.specs.EncodedValue.{IsEncoded};
ghost use Rattle.slot_encoding.specs.EncodedWords.{HasEncodedWords};
ghost use Rattle.slot_encoding.specs.slot_declarations.Frames.{IsFrame};
ghost use Rattle.slot_encoder.specs.Made as made;
ghost use Rattle.slot_encoder.specs.Encodings.{IsPrintableWhereSound};

use crate::actions::action_at;
use crate::goals::goal_of;
use crate::initial::encoded_initial;
use crate::lower_slots::{LowerSlots, declared, lower_slots, words_of};
use crate::split_action::SplitAction;
use htn_base::{List, Memory, NameTable};
use plan_model::{ActionSchema, Compiled, Pddl, Slots, Style};
use slot_encoding::slot_declarations::{Basis, Frame, basis_of, renamed};
use std::alloc::Global;

/// The printed problem with so many slots, ready to be taken part by part: `head` has all but the actions and what is true of lower
/// slots, with all words, and `action` makes one action at a time.
pub struct Encoding {
    pub head: Pddl,
    pub slots: u32,
    pub style: Style,
    pub rule: Slots,
    // finds the words of the head
    names: NameTable,
    basis: Basis,
}

impl Drop for Encoding {
    fn drop(self) {
        let Encoding {
            head: _,
            slots: _,
            style: _,
            rule: _,
            names: _,
            basis: _,
        } = self;
    }
}

impl Encoding {
    ghost use Rattle.std.specs.Prelude.{Some, slice_get};
    ghost use Rattle.plan_model.specs.declared.options.Slots.TheVariants.{Any};
    ghost use Rattle.slot_encoder.specs.Encodings.{IsEncoding, all_actions, lower_in, whole_in, with_actions};

    /// That of a compiled problem, by which free slots a method takes. The source's types are few and their parents and unions are
    /// listed.
    pub fn new(
        alloc: Global,
        c: &Compiled,
        slots: u32,
        rule: &Slots,
        style: &Style,
    ) -> Result<Encoding, Memory>
        requires listed { AreListed c.now.hddl.types }
        ensures encoding { IfOk result (IsEncoding c.now) }
        ensures slots { IfOk result (λ e. e.slots ≡ slots) }
        ensures style { IfOk result (λ e. e.style ≡ style.now) }
        ensures rule { IfOk result (λ e. e.rule ≡ rule.now) }
    {
        let names = words_of(alloc, c, slots, rule)?;
        let basis = basis_of(alloc, c, &names, slots)?;
        let frame = Frame {
            compiled: c,
            printed: &names,
            slots,
            style: *style,
            basis: &basis,
        };
        match head_of(alloc, &frame, rule) {
            Ok(head) => Ok(Encoding {
                head,
                slots,
                style: *style,
                rule: *rule,
                names,
                basis,
            }),
            Err(memory) => {
                drop(names);
                drop(basis);
                Err(memory)
            }
        }
    }

    /// How many actions there are.
    pub fn count(&self, c: &Compiled) -> u32
        requires encoding { IsEncoding c.now self.now }
        ensures count { result ≡ length (all_actions c.now self.now) }
    {
        (c.methods.len() + self.basis.checks.methods.len() + c.hddl.actions.len()) as u32
    }

    /// Action `k`, from 0: those of the methods come first, the top method's before all, then those of the checks, then the source's. It
    /// lacks what is asked of the lowest free slots.
    pub fn action(&self, alloc: Global, c: &Compiled, k: u32) -> Result<SplitAction, Memory>
        requires encoding { IsEncoding c.now self.now }
        requires some { k < length (all_actions c.now self.now) }
        ensures action { IfOk result
            (λ a. slice_get (all_actions c.now self.now) k ≡ Some (whole_in c.now self.now a)) }
    {
        let frame = Frame {
            compiled: c,
            printed: &self.names,
            slots: self.slots,
            style: self.style,
            basis: &self.basis,
        };
        action_at(alloc, &frame, k)
    }

    /// By which numbers it is said that slots are lower than others, where a method takes the lowest free ones.
    pub fn lower_slots(&self, c: &Compiled) -> Result<Option<LowerSlots>, Memory>
        requires encoding { IsEncoding c.now self.now }
        ensures lower { IfOk result (λ slots. slots ≡ lower_in c.now self.now) }
    {
        let frame = Frame {
            compiled: c,
            printed: &self.names,
            slots: self.slots,
            style: self.style,
            basis: &self.basis,
        };
        lower_slots(&frame, &self.rule)
    }

    /// The value with these actions.
    fn into_value(self, actions: List<ActionSchema>) -> Pddl
        ensures { result ≡ with_actions self.head actions }
    {
        let Encoding {
            mut head,
            slots: _,
            style: _,
            rule: _,
            names: _,
            basis: _,
        } = self;
        head.actions = actions;
        head
    }

    fn actions(&self, alloc: Global, c: &Compiled) -> Result<List<ActionSchema>, Memory>
        requires encoding { IsEncoding c.now self.now }
        requires any { self.now.rule ≡ Any }
        ensures { IfOk result (λ actions. actions ≡ all_actions c.now self.now) }
    {
        let mut into = List::new(alloc);
        for k in 0..self.count(c) {
            let action = self.action(alloc, c, k)?;
            into.put(action.whole(alloc))?;
        }
        Ok(into)
    }
}

/// The printed problem with so many slots, any free ones of which a method takes, with all its words. The source's types are few and their parents
/// and unions are listed.
pub fn encode(alloc: Global, c: &Compiled, slots: u32, style: &Style) -> Result<Pddl, Memory>
    requires listed { AreListed c.now.hddl.types }
    ensures encoded { IfOk result (λ p. IsEncoded c.now slots style.now p) }
    ensures words { IfOk result (λ p. HasEncodedWords c.now slots p.names) }
    ensures short { IfOk result (λ p. length p.names < 2 ^ 32) }
    ensures printable { IfOk result (IsPrintableWhereSound c.now slots) }
{
    let encoding = Encoding::new(alloc, c, slots, &Slots::Any, style)?;
    match encoding.actions(alloc, c) {
        Ok(actions) => Ok(encoding.into_value(actions)),
        Err(memory) => {
            drop(encoding);
            Err(memory)
        }
    }
}

/// All of the printed problem but its actions, and what is true of lower slots.
fn head_of(alloc: Global, frame: &Frame<'_>, rule: &Slots) -> Result<Pddl, Memory>
    requires frame { IsFrame frame.now }
    requires listed { AreListed frame.now.compiled.now.hddl.types }
    ensures { IfOk result (made.IsHead frame.now rule.now) }
{
    let hddl = &frame.compiled.hddl;
    let names = frame.printed.to_list(alloc)?;
    let init = encoded_initial(alloc, frame)?;
    let goal = goal_of(alloc, frame)?;
    let declarations = declared(alloc, frame, rule)?;
    Ok(Pddl {
        names,
        domain: renamed(frame, hddl.domain),
        problem: renamed(frame, hddl.problem),
        types: declarations.types,
        objects: declarations.objects,
        predicates: declarations.predicates,
        actions: List::new(alloc),
        init,
        goal,
    })
}
