//! Variables in force are looked up by their numbers.

use htn_base::Name;
use plan_model::{Param, Scope};

fn variable(ty: u32) -> Param {
    let name = Name { number: 0 };
    Param { name, ty }
}

fn finds(scope: &Scope<'_>, number: usize, ty: u32) -> bool {
    match scope.find(number) {
        Ok(found) => found.ty == ty,
        Err(_) => false,
    }
}

fn misses(scope: &Scope<'_>, number: usize, past: usize) -> bool {
    match scope.find(number) {
        Ok(_) => false,
        Err(found) => found == past,
    }
}

// Two variables around, of types 1 and 2, and one inside, of type 3. Numbers 3 and 5 are 0 and 2 past the end.
#[test]
fn variables_in_force(rt: HostRuntime) {
    let around = [variable(1), variable(2)];
    let inside = [variable(3)];
    let outer = Scope::Within(&Scope::Empty, around.as_slice());
    let scope = Scope::Within(&outer, inside.as_slice());
    let found = finds(&scope, 0, 1) && finds(&scope, 1, 2) && finds(&scope, 2, 3);
    let missed = misses(&scope, 3, 0) && misses(&scope, 5, 2) && misses(&Scope::Empty, 4, 4);
    assert!(rt; found && missed);
}
