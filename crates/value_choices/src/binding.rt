ghost use Rattle.std.specs.Prelude.{◌≡◌};
ghost use Rattle.plan_model.specs.plan_meaning.Truth.{value_of, values_of};
ghost use Rattle.value_choices.specs.Settled as spec;

use plan_model::Term;

/// The term stands for the object: what is known of the values then. `false` where it can't.
fn bind_term(term: Term, object: u32, known: &mut [Option<u32>]) -> bool
    ensures { spec.Settles (λ values. value_of values term ≡ object) known.old known.new result }
{
    match term {
        Term::Var(variable) => {
            let place = variable as usize;
            if place >= known.len() {
                return object == 0;
            }
            match known[place] {
                Some(value) => value == object,
                None => {
                    known[place] = Some(object);
                    true
                }
            }
        }
        Term::Obj(constant) => constant == object,
    }
}

/// The terms stand for these objects: what is known of the values then. `false` where they can't.
pub fn bind_terms(terms: &[Term], objects: &[u32], known: &mut [Option<u32>]) -> bool
    ensures { spec.Settles (λ values. values_of values terms.now ≡ objects.now) known.old known.new result }
{
    if terms.len() != objects.len() {
        return false;
    }
    for i in 0..terms.len() {
        if !bind_term(terms[i], objects[i], known) {
            return false;
        }
    }
    true
}
