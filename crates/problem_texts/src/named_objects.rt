ghost use Rattle.std.specs.Prelude.{ℕ, ◌≡◌, map};
ghost use Rattle.slot_encoding.specs.encoded_texts.NamedObjects as spec;
ghost use Rattle.slot_encoding.specs.encoded_texts.NamedObjects.{greatest};

use htn_base::PackedPart;
use plan_model::{
    ActionSchema, Child, Compiled, Constraint, Effect, Facts, Formula, Guard, MethodPlan, Term,
};

/// What may name objects.
trait NamesObjects {
    ghost named: { Self → ℕ };

    /// One more than the greatest number of an object that it names; 0 where it names none. `passed` goes up by one for each
    /// part that is gone over or passed by.
    fn named(&self, passed: &mut u64) -> u64
        ensures { result ≡ named self.now };
}

/// The same of what names objects most of all these.
fn named_by_all<T: NamesObjects>(items: &[T], passed: &mut u64) -> u64
    ensures { result ≡ greatest (map T.named items.now) }
{
    let mut most: u64 = 0;
    for item in items {
        *passed = passed.saturating_add(1);
        most = most.max(item.named(passed));
    }
    most
}

/// The same of objects.
fn named_by_objects(objects: &PackedPart<'_>) -> u64
    ensures { result ≡ greatest (map spec.of_object objects.now) }
{
    let mut most: u64 = 0;
    for j in 0..objects.len() {
        if let Some(object) = objects.get(j) {
            most = most.max(u64::from(object) + 1);
        }
    }
    most
}

/// The same of all facts.
fn named_by_facts(facts: &Facts) -> u64
    ensures { result ≡ greatest (map spec.of_fact facts.now) }
{
    let mut most: u64 = 0;
    for i in 0..facts.len() {
        if let Some(fact) = facts.get(i) {
            most = most.max(named_by_objects(&fact.args));
        }
    }
    most
}

/// The same of a compiled problem. `passed`: but for its facts.
pub(crate) fn named_objects(c: &Compiled, passed: &mut u64) -> u64
    ensures { result ≡ spec.of_compiled c.now }
{
    let methods = named_by_all(c.methods.as_slice(), passed);
    let actions = named_by_all(c.hddl.actions.as_slice(), passed);
    let facts = named_by_facts(&c.hddl.init);
    let goal = by_formula(&c.hddl.goal, passed);
    methods.max(actions).max(facts.max(goal))
}

impl NamesObjects for Term {
    ghost named = { spec.of_term };

    fn named(&self, _: &mut u64) -> u64 {
        match self {
            Term::Var(_) => 0,
            Term::Obj(object) => u64::from(*object) + 1,
        }
    }
}

impl NamesObjects for Child {
    ghost named = { spec.of_child };

    fn named(&self, passed: &mut u64) -> u64 {
        named_by_all(self.args.as_slice(), passed)
    }
}

impl NamesObjects for Constraint {
    ghost named = { spec.of_constraint };

    fn named(&self, passed: &mut u64) -> u64 {
        self.left.named(passed).max(self.right.named(passed))
    }
}

impl NamesObjects for Guard {
    ghost named = { spec.of_guard };

    fn named(&self, passed: &mut u64) -> u64 {
        self.term.named(passed)
    }
}

impl NamesObjects for MethodPlan {
    ghost named = { spec.of_method };

    fn named(&self, passed: &mut u64) -> u64 {
        let more = self
            .schema
            .params
            .len()
            .saturating_add(self.schema.pairs.len());
        *passed = passed.saturating_add(more as u64);
        let task = named_by_all(self.schema.task_args.as_slice(), passed);
        let children = named_by_all(self.schema.children.as_slice(), passed);
        let constraints = named_by_all(self.schema.constraints.as_slice(), passed);
        let guards = named_by_all(self.guards.as_slice(), passed);
        let pre = by_formula(&self.schema.pre, passed);
        task.max(children).max(constraints.max(guards).max(pre))
    }
}

impl NamesObjects for ActionSchema {
    ghost named = { spec.of_action };

    fn named(&self, passed: &mut u64) -> u64 {
        *passed = passed.saturating_add(self.params.len() as u64);
        by_formula(&self.pre, passed).max(by_effect(&self.eff, passed))
    }
}

#[cycle(formulas)]
fn by_formula(formula: &Formula, passed: &mut u64) -> u64
    ensures { result ≡ spec.of_formula formula.now }
{
    *passed = passed.saturating_add(1);
    match formula {
        Formula::Holds(atom) => named_by_all(atom.args.as_slice(), passed),
        Formula::Equal(left, right) => left.named(passed).max(right.named(passed)),
        Formula::Not(part) => by_formula(part.get(), passed),
        Formula::And(parts) => by_formulas(parts.as_slice(), passed),
        Formula::Or(parts) => by_formulas(parts.as_slice(), passed),
        Formula::Imply(premise, conclusion) => {
            by_formula(premise.get(), passed).max(by_formula(conclusion.get(), passed))
        }
        Formula::Forall(_, body) => by_formula(body.get(), passed),
        Formula::Exists(_, body) => by_formula(body.get(), passed),
    }
}

#[cycle(formulas)]
fn by_formulas(formulas: &[Formula], passed: &mut u64) -> u64
    ensures { result ≡ greatest (map spec.of_formula formulas.now) }
{
    let mut most: u64 = 0;
    for formula in formulas {
        most = most.max(by_formula(formula, passed));
    }
    most
}

#[cycle(effects)]
fn by_effect(effect: &Effect, passed: &mut u64) -> u64
    ensures { result ≡ spec.of_effect effect.now }
{
    *passed = passed.saturating_add(1);
    match effect {
        Effect::Add(atom) => named_by_all(atom.args.as_slice(), passed),
        Effect::Delete(atom) => named_by_all(atom.args.as_slice(), passed),
        Effect::And(parts) => by_effects(parts.as_slice(), passed),
        Effect::Forall(_, body) => by_effect(body.get(), passed),
        Effect::When(condition, body) => by_formula(condition, passed).max(by_effect(
            body.get(),
            passed,
        )),
    }
}

#[cycle(effects)]
fn by_effects(effects: &[Effect], passed: &mut u64) -> u64
    ensures { result ≡ greatest (map spec.of_effect effects.now) }
{
    let mut most: u64 = 0;
    for effect in effects {
        most = most.max(by_effect(effect, passed));
    }
    most
}
