ghost use Rattle.std.specs.Prelude.{◌≡◌, ◌<◌, ◌^◌, [], ◌∷◌, ◌++◌, IfOk, OnOk};
ghost use Rattle.plan_model.specs.Facts.{atom_of};
ghost use Rattle.plan_model.specs.Numbers as spec;
ghost use Rattle.plan_model.specs.plan_meaning.Compilation.{once};
ghost use Rattle.slot_encoding.specs.EncodedValue.{same_atom};
ghost use Rattle.slot_encoder.specs.SeenFacts.{HasMet, Meets};

use htn_base::Memory;
use plan_model::Facts;
use std::alloc::Global;
use std::collections::BTreeSet;

/// Puts each of the facts at the end, at its first place alone. It takes less memory and time for facts of which no predicate
/// and no object is greater than `most`.
pub fn push_single(alloc: Global, facts: &Facts, most: u32, into: &mut Facts) -> Result<(), Memory>
    ensures { OnOk result (into.new ≡ into.old ++ once same_atom facts.now) }
{
    let mut seen = Seen {
        most,
        numbers: BTreeSet::new(alloc),
        keys: BTreeSet::new(alloc),
    };
    let put = push_unseen(alloc, facts, &mut seen, into);
    drop(seen);
    put
}

/// The same where no fact was met yet.
fn push_unseen(
    alloc: Global,
    facts: &Facts,
    seen: &mut Seen,
    into: &mut Facts,
) -> Result<(), Memory>
    requires { HasMet seen.old [] }
    ensures { OnOk result (into.new ≡ into.old ++ once same_atom facts.now) }
{
    let mut args = Vec::new(alloc);
    for i in 0..facts.len() {
        if let Some(fact) = facts.get(i) {
            fact.args.copy_into(&mut args)?;
            if seen.insert(alloc, fact.predicate, args.as_slice())? {
                into.push(fact.predicate, args.as_slice())?;
            }
        }
    }
    Ok(())
}

/// The facts that were met: the numbers of those that have one, and the keys of the others. They are found by an order, in no
/// more steps whatever a text has.
pub struct Seen {
    most: u32,
    numbers: BTreeSet<u64>,
    keys: BTreeSet<Vec<u32>>,
}

impl Drop for Seen {
    fn drop(self) {
        let Seen {
            most: _,
            numbers: _,
            keys: _,
        } = self;
    }
}

impl Seen {
    /// Puts a fact to the others, and tells whether it is new.
    fn insert(&mut self, alloc: Global, predicate: u32, args: &[u32]) -> Result<bool, Memory>
        ensures { IfOk result (Meets self.old (atom_of predicate args.now) self.new) }
    {
        match number_of(predicate, args, self.most) {
            Some(number) => Ok(self.numbers.insert(number)?),
            None => Ok(self.keys.insert(key(alloc, predicate, args)?)?),
        }
    }
}

/// The number of the fact, where it has one: facts with numbers have different ones.
fn number_of(predicate: u32, args: &[u32], most: u32) -> Option<u64>
    ensures { result ≡ spec.number most (2 ^ 64) (predicate ∷ args.now) }
{
    let mut number = 1;
    for i in (0..args.len()).rev() {
        number = with_digit(number, args[i], most)?;
    }
    with_digit(number, predicate, most)
}

fn with_digit(number: u64, digit: u32, most: u32) -> Option<u64>
    ensures { result ≡ spec.with_digit most (2 ^ 64) digit number }
{
    if digit > most {
        return None;
    }
    let front = number.checked_mul(most as u64 + 2)?;
    front.checked_add(digit as u64)
}

/// What tells a fact from others: its predicate and its objects, in one list.
fn key(alloc: Global, predicate: u32, args: &[u32]) -> Result<Vec<u32>, Memory>
    ensures { IfOk result (λ key. key.items ≡ predicate ∷ args.now) }
{
    let mut key = Vec::with_capacity(alloc, args.len() + 1)?;
    key.push(predicate)?;
    key.extend_from_slice(args)?;
    Ok(key)
}
