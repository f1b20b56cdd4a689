ghost use Rattle.std.specs.Prelude.{◌≡◌, ◌≤◌, ◌∷◌, length, MatchBool, OnOk, OnErr};
ghost use Rattle.std.specs.Bool.{OnTrue};
ghost use Rattle.problem_index.specs.Domains.{IsBelow};
ghost use Rattle.problem_index.specs.Kinds.{IsWorld};
ghost use Rattle.plan_model.specs.plan_meaning.Truth.{ground};
ghost use Rattle.ground_state.specs.Frames.{frame};
ghost use Rattle.ground_state.specs.Room.{EffectFits, AllEffectsFit, EffectFitsWithin};
ghost use Rattle.ground_state.specs.States.{HasSameNotes};
ghost use Rattle.ground_state.specs.Passes as spec;
ghost use Rattle.ground_state.specs.Clauses.{IsDomainIn, HasPassed, HasPassedEach, HasPassedWithin};

use crate::env::Env;
use crate::state::State;
use htn_base::Memory;
use plan_model::{Atom, Effect, Param, Parts};
use problem_index::{Domain, World};
use std::alloc::Global;

/// A pass over an effect without conditions, of which no list is made: what it adds is noted as false where nothing is
/// noted of it, what it deletes becomes false, what it adds becomes true, and spare notes of what it deletes are taken away.
#[derive(Clone, Copy)]
pub enum Pass {
    Enter,
    Deny,
    Affirm,
    Forget,
}

impl Pass {
    /// Whether it is over what is added, and not over what is deleted.
    #[inline(always)]
    fn is_of_adds(self) -> bool
        ensures { result ≡ spec.of_adds self }
    {
        match self {
            Pass::Enter => true,
            Pass::Deny => false,
            Pass::Affirm => true,
            Pass::Forget => false,
        }
    }

    /// Whether it does nothing with what the effect touches, whatever the objects are.
    fn is_idle(self, eff: &Effect) -> bool
        ensures { OnTrue result (spec.IsIdle self eff.now) }
    {
        match eff {
            Effect::Add(_) => !self.is_of_adds(),
            Effect::Delete(_) => self.is_of_adds(),
            _ => false,
        }
    }
}

// Only the pass that enters takes memory.
impl State {
    /// Makes the pass over what the effect touches, with the objects of the environment.
    #[cycle(pass_over)]
    #[inline(always)]
    pub(crate) fn pass_over(
        &mut self,
        pass: Pass,
        alloc: Global,
        eff: &Effect,
        env: &mut Env,
        world: &World<'_>,
    ) -> Result<(), Memory>
        requires world { IsWorld world.now }
        requires room { EffectFits (frame env.old) eff.now }
        requires plain { spec.IsPlain (frame env.old) eff.now }
        ensures passed { OnOk result (HasPassed world.now pass eff.now env.old self.old self.new) }
        ensures unchanged { OnErr result (spec.HasOnlyEntered pass self.old self.new) }
        ensures kept { frame env.new ≡ frame env.old }
    {
        match eff {
            Effect::Add(atom) => self.visit(pass, true, alloc, env, atom),
            Effect::Delete(atom) => self.visit(pass, false, alloc, env, atom),
            Effect::And(parts) => { self.pass_over_each(pass, alloc, parts.as_slice(), env, world) }
            Effect::Forall(params, body) => {
                if pass.is_idle(body.get()) {
                    return Ok(());
                }
                let params = params.as_slice();
                self.pass_over_within(pass, alloc, params, body.get(), env, world)
            }
            Effect::When(_, _) => Ok(()),
        }
    }

    /// The same, of each of the effects.
    #[cycle(pass_over)]
    fn pass_over_each(
        &mut self,
        pass: Pass,
        alloc: Global,
        parts: &[Effect],
        env: &mut Env,
        world: &World<'_>,
    ) -> Result<(), Memory>
        requires world { IsWorld world.now }
        requires room { AllEffectsFit (frame env.old) parts.now }
        requires plain { spec.ArePlain (frame env.old) parts.now }
        ensures passed { OnOk result (HasPassedEach world.now pass parts.now env.old self.old self.new) }
        ensures unchanged { OnErr result (spec.HasOnlyEntered pass self.old self.new) }
        ensures kept { frame env.new ≡ frame env.old }
    {
        for part in parts {
            self.pass_over(pass, alloc, part, env, world)?;
        }
        Ok(())
    }

    /// The same, of the effect with all objects of these types.
    #[cycle(pass_over)]
    fn pass_over_within(
        &mut self,
        pass: Pass,
        alloc: Global,
        params: &[Param],
        body: &Effect,
        env: &mut Env,
        world: &World<'_>,
    ) -> Result<(), Memory>
        requires world { IsWorld world.now }
        requires room { EffectFitsWithin (frame env.old) params.now body.now }
        requires plain { spec.IsPlain (frame env.old) body.now }
        ensures passed { OnOk result
            (HasPassedWithin world.now pass params.now body.now env.old self.old self.new) }
        ensures unchanged { OnErr result (spec.HasOnlyEntered pass self.old self.new) }
        ensures kept { frame env.new ≡ frame env.old }
    {
        let Some((param, rest)) = params.split_first() else {
            return self.pass_over(pass, alloc, body, env, world);
        };
        match world.domain(param.ty) {
            Some(domain) => self.pass_over_of(pass, &domain, alloc, param, rest, body, env, world),
            None => self.pass_over_in_parts(pass, alloc, param, rest, body, env, world),
        }
    }

    /// The same, where nothing is known of the first type beforehand. It keeps the room for the marks of its parts out of
    /// the way of the rest.
    #[cycle(pass_over)]
    #[cold]
    #[inline(never)]
    fn pass_over_in_parts(
        &mut self,
        pass: Pass,
        alloc: Global,
        param: &Param,
        rest: &[Param],
        body: &Effect,
        env: &mut Env,
        world: &World<'_>,
    ) -> Result<(), Memory>
        requires world { IsWorld world.now }
        requires room { EffectFitsWithin (frame env.old) (param.now ∷ rest.now) body.now }
        requires plain { spec.IsPlain (frame env.old) body.now }
        ensures passed { OnOk result
            (HasPassedWithin world.now pass (param.now ∷ rest.now) body.now env.old self.old self.new) }
        ensures unchanged { OnErr result (spec.HasOnlyEntered pass self.old self.new) }
        ensures kept { frame env.new ≡ frame env.old }
    {
        let parts = Parts::new(world.types, param.ty);
        let domain = Domain::among(world.objects, &parts);
        self.pass_over_of(pass, &domain, alloc, param, rest, body, env, world)
    }

    /// The same, where the domain has the objects of the first type.
    #[cycle(pass_over)]
    #[inline(always)]
    fn pass_over_of(
        &mut self,
        pass: Pass,
        domain: &Domain<'_>,
        alloc: Global,
        param: &Param,
        rest: &[Param],
        body: &Effect,
        env: &mut Env,
        world: &World<'_>,
    ) -> Result<(), Memory>
        requires world { IsWorld world.now }
        requires domain { IsDomainIn world.now param.now.ty domain.now }
        requires room { EffectFitsWithin (frame env.old) (param.now ∷ rest.now) body.now }
        requires plain { spec.IsPlain (frame env.old) body.now }
        ensures passed { OnOk result
            (HasPassedWithin world.now pass (param.now ∷ rest.now) body.now env.old self.old self.new) }
        ensures unchanged { OnErr result (spec.HasOnlyEntered pass self.old self.new) }
        ensures kept { frame env.new ≡ frame env.old }
    {
        let count = world.objects.len() as u32;
        if rest.is_empty() && self.deny_each(pass, domain, count, env, body) {
            return Ok(());
        }
        for place in 0..domain.len() {
            if let Some(object) = domain.at(place) {
                env.push(object);
                let passed = self.pass_over_within(pass, alloc, rest, body, env, world);
                env.pop();
                passed?;
            }
        }
        Ok(())
    }

    /// Where an atom is to become false with each object of the domain for one more variable, it is made so without
    /// a look-up of whole atoms, if that can be. Else nothing is done, and the answer is no. `count`: the number of all
    /// objects.
    #[inline(always)]
    fn deny_each(
        &mut self,
        pass: Pass,
        domain: &Domain<'_>,
        count: u32,
        env: &Env,
        eff: &Effect,
    ) -> bool
        requires below { IsBelow count domain.now }
        ensures { MatchBool result
            (spec.HasDenied pass domain.now eff.now (frame env.now).objects self.old self.new)
            (HasSameNotes self.old self.new) }
    {
        let (Pass::Deny, Effect::Delete(atom)) = (pass, eff) else {
            return false;
        };
        match self.facts.get_mut(atom.predicate as usize) {
            Some(notes) => notes.deny_each(domain, count, env, atom.args.as_slice()),
            None => false,
        }
    }

    /// Makes the pass over an atom that is added, or deleted.
    #[inline(always)]
    fn visit(
        &mut self,
        pass: Pass,
        adds: bool,
        alloc: Global,
        env: &mut Env,
        atom: &Atom,
    ) -> Result<(), Memory>
        requires room { length atom.now.args ≤ (frame env.old).arity }
        ensures passed { OnOk result
            (spec.Passes pass (λ g. (adds ≡ spec.of_adds pass) × (g ≡ ground (frame env.old).objects atom.now)) self.old self.new) }
        ensures unchanged { OnErr result (spec.HasOnlyEntered pass self.old self.new) }
        ensures kept { frame env.new ≡ frame env.old }
    {
        if pass.is_of_adds() != adds {
            return Ok(());
        }
        match pass {
            Pass::Enter => {
                if self.note_atom(env, atom).is_some() {
                    return Ok(());
                }
                env.fill(atom.args.as_slice());
                self.insert(alloc, atom.predicate, env.args(), false)
            }
            Pass::Deny | Pass::Affirm => {
                self.set_atom(env, atom, adds);
                Ok(())
            }
            Pass::Forget => {
                env.fill(atom.args.as_slice());
                self.forget_atom(atom.predicate, env.args());
                Ok(())
            }
        }
    }
}
