ghost use Rattle.std.specs.Prelude.{◌≡◌, ◌+◌, ◌≤◌, length, IfOk};
ghost use Rattle.ground_state.specs.Needs as spec;

use htn_base::{Memory, number};
use plan_model::{ActionSchema, Compiled, Effect, Formula, MethodPlan, Param, Pddl};

/// The room that an environment needs: for so many variables in force, and for so many arguments of an atom. Where one
/// is 2^32 or more, that is answered as want of memory.
#[derive(Clone, Copy)]
pub struct Need {
    pub depth: u32,
    pub arity: u32,
}

impl Need {
    /// The room that all actions and the goal of the problem need.
    pub(crate) fn of(p: &Pddl) -> Result<Need, Memory>
        ensures { IfOk result (spec.IsEnoughForAll p.now) }
    {
        let none = Need { depth: 0, arity: 0 };
        none.with_formula(&p.goal, 0)?
            .with_actions(p.actions.as_slice())
    }

    /// The room that all actions, the preconditions of all methods and the goal of the compiled problem need.
    pub fn of_compiled(compiled: &Compiled) -> Result<Need, Memory>
        ensures { IfOk result (spec.IsEnoughForCompiled compiled.now) }
    {
        let none = Need { depth: 0, arity: 0 };
        none.with_formula(&compiled.hddl.goal, 0)?
            .with_actions(compiled.hddl.actions.as_slice())?
            .with_methods(compiled.methods.as_slice())
    }

    /// With the room that the actions need.
    fn with_actions(self, actions: &[ActionSchema]) -> Result<Need, Memory>
        ensures enough { IfOk result (spec.IsEnoughForEachAction actions.now) }
        ensures more { IfOk result (spec.IsWithin self) }
    {
        let mut need = self;
        for action in actions {
            need = need.with_action(action)?;
        }
        Ok(need)
    }

    /// With the room that the preconditions of the methods need.
    fn with_methods(self, methods: &[MethodPlan]) -> Result<Need, Memory>
        ensures enough { IfOk result (spec.IsEnoughForEachMethod methods.now) }
        ensures more { IfOk result (spec.IsWithin self) }
    {
        let mut need = self;
        for plan in methods {
            need = need.with_condition(plan.schema.params.as_slice(), &plan.schema.pre)?;
        }
        Ok(need)
    }

    /// With the room that the action needs.
    fn with_action(self, action: &ActionSchema) -> Result<Need, Memory>
        ensures enough { IfOk result (spec.IsEnoughForAction action.now) }
        ensures more { IfOk result (spec.IsWithin self) }
    {
        let inside = within(0, action.params.as_slice())?;
        self.at_least(inside, 0)
            .with_formula(&action.pre, inside)?
            .with_effect(&action.eff, inside)
    }

    /// With the room that these parameters and a condition on them need.
    fn with_condition(self, params: &[Param], condition: &Formula) -> Result<Need, Memory>
        ensures enough { IfOk result (spec.IsEnoughWithin params.now condition.now) }
        ensures more { IfOk result (spec.IsWithin self) }
    {
        let inside = within(0, params)?;
        self.at_least(inside, 0).with_formula(condition, inside)
    }

    /// With the room that the formula needs where so many variables are in force.
    #[cycle(with_formula)]
    fn with_formula(self, f: &Formula, inside: u32) -> Result<Need, Memory>
        ensures enough { IfOk result (spec.IsEnough inside f.now) }
        ensures more { IfOk result (spec.IsWithin self) }
    {
        match f {
            Formula::Holds(atom) => {
                let arity = number(atom.args.len())?;
                Ok(self.at_least(0, arity))
            }
            Formula::Equal(_, _) => Ok(self),
            Formula::Not(part) => self.with_formula(part.get(), inside),
            Formula::And(parts) | Formula::Or(parts) => {
                let mut need = self;
                for part in parts.as_slice() {
                    need = need.with_formula(part, inside)?;
                }
                Ok(need)
            }
            Formula::Imply(premise, conclusion) => self
                .with_formula(premise.get(), inside)?
                .with_formula(conclusion.get(), inside),
            Formula::Forall(params, body) | Formula::Exists(params, body) => {
                let inner = within(inside, params.as_slice())?;
                self.at_least(inner, 0).with_formula(body.get(), inner)
            }
        }
    }

    /// With the room that the effect needs where so many variables are in force.
    #[cycle(with_effect)]
    fn with_effect(self, eff: &Effect, inside: u32) -> Result<Need, Memory>
        ensures enough { IfOk result (spec.IsEnoughForEffect inside eff.now) }
        ensures more { IfOk result (spec.IsWithin self) }
    {
        match eff {
            Effect::Add(_) => Ok(self),
            Effect::Delete(_) => Ok(self),
            Effect::And(parts) => {
                let mut need = self;
                for part in parts.as_slice() {
                    need = need.with_effect(part, inside)?;
                }
                Ok(need)
            }
            Effect::Forall(params, body) => {
                let inner = within(inside, params.as_slice())?;
                self.at_least(inner, 0).with_effect(body.get(), inner)
            }
            Effect::When(condition, body) => self
                .with_formula(condition, inside)?
                .with_effect(body.get(), inside),
        }
    }

    /// With at least this room.
    fn at_least(self, depth: u32, arity: u32) -> Need
        ensures depth { depth ≤ result.depth }
        ensures arity { arity ≤ result.arity }
        ensures more { spec.IsWithin self result }
    {
        Need {
            depth: self.depth.max(depth),
            arity: self.arity.max(arity),
        }
    }
}

/// How many variables are in force inside a quantifier over these.
fn within(inside: u32, params: &[Param]) -> Result<u32, Memory>
    ensures { IfOk result (λ inner. inner ≡ inside + length params.now) }
{
    let more = number(params.len())?;
    inside.checked_add(more).ok_or(Memory)
}
