ghost use Rattle.std.specs.Prelude.{◌≡◌, ◌↔◌, IsTrue, Contains};
ghost use Rattle.plan_model.specs.declared.networks.Constraint.{Constraint as constraint};
ghost use Rattle.plan_model.specs.plan_meaning.Truth.{value_of};
ghost use Rattle.plan_model.specs.plan_meaning.Network.{Meets};

use plan_model::{Constraint, Term};

/// The object that the term stands for. A variable without a value stands for object 0.
fn value(term: Term, values: &[u32]) -> u32
    ensures { result ≡ value_of values.now term }
{
    match term {
        Term::Var(variable) => match values.get(variable as usize) {
            Some(object) => *object,
            None => 0,
        },
        Term::Obj(object) => object,
    }
}

/// Whether the values meet the constraint.
fn meets_one(constraint: Constraint, values: &[u32]) -> bool
    ensures { IsTrue result ↔ Meets values.now constraint }
{
    let same = value(constraint.left, values) == value(constraint.right, values);
    same == constraint.equal
}

/// Whether the values meet all constraints.
pub fn meets(constraints: &[Constraint], values: &[u32]) -> bool
    ensures { IsTrue result ↔ ((con : constraint) → Contains constraints.now con → Meets values.now con) }
{
    for constraint in constraints {
        if !meets_one(*constraint, values) {
            return false;
        }
    }
    true
}
