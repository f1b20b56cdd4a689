ghost use Rattle.std.specs.Prelude.{ℕ, List, ◌≡◌, ◌≤◌, ◌^◌, ◌∷◌, [], IfOk, OnOk, OnErr};
ghost use Rattle.std.specs.List.Sorted.{IsNonDecreasing};
ghost use Rattle.plan_model.specs.Numbers.{with_digit};
ghost use Rattle.state_history.specs.Gaps as spec;

use htn_base::Memory;
use std::alloc::Global;
use std::collections::BTreeMap;

/// Whether something is true in a gap, and the first gap since which all that was looked at is as it is there.
#[derive(Clone, Copy)]
pub struct Look {
    pub truth: bool,
    pub since: u32,
}

/// At the key of each atom, its predicate before its objects, the gaps in which it flips, in order. It is false before the first.
///
/// `near`: at the numbers of keys. `far`: at the keys that have none, which take longer to be found. `most`: the greatest item of a
/// key that has a number.
pub struct Gaps {
    near: BTreeMap<u64, Vec<u32>>,
    far: BTreeMap<Vec<u32>, Vec<u32>>,
    most: u32,
}

impl Drop for Gaps {
    fn drop(self) {
        let Gaps {
            near: _,
            far: _,
            most: _,
        } = self;
    }
}

impl Gaps {
    /// No atom ever flips. It takes no memory yet.
    pub(crate) fn new(alloc: Global, most: u32) -> Gaps
        ensures { (key : List ℕ) → spec.flips_at result key ≡ [] }
    {
        Gaps {
            near: BTreeMap::new(alloc),
            far: BTreeMap::new(alloc),
            most,
        }
    }

    /// The gaps in which the atom of this key flips.
    pub(crate) fn of(&self, key: &[u32]) -> &[u32]
        ensures { result.now ≡ spec.flips_at self.now key.now }
    {
        let kept = match number_of(self.most, key) {
            Some(number) => self.near.get(&number),
            None => self.far.get(key),
        };
        match kept {
            Some(flips) => flips.as_slice(),
            None => &[],
        }
    }

    /// Makes the atom of this key true, or false, from the gap on, which is the last.
    pub(crate) fn turn(
        &mut self,
        alloc: Global,
        key: Vec<u32>,
        gap: u32,
        truth: bool,
    ) -> Result<(), Memory>
        requires { spec.AreWithin gap (spec.flips_at self.old key.items) }
        ensures turned { OnOk result (spec.AreTurned gap truth self.old key.items self.new) }
        ensures unchanged { OnErr result (spec.AreSame self.old self.new) }
    {
        match number_of(self.most, key.as_slice()) {
            Some(number) => {
                if let Some(flips) = self.near.get_mut(&number) {
                    return turn(flips, gap, truth);
                }
                if !truth {
                    return Ok(());
                }
                let flips = once(alloc, gap)?;
                self.near.insert(number, flips)?;
                Ok(())
            }
            None => {
                if let Some(flips) = self.far.get_mut(key.as_slice()) {
                    return turn(flips, gap, truth);
                }
                if !truth {
                    return Ok(());
                }
                let flips = once(alloc, gap)?;
                self.far.insert(key, flips)?;
                Ok(())
            }
        }
    }
}

/// One flip.
fn once(alloc: Global, gap: u32) -> Result<Vec<u32>, Memory>
    ensures { IfOk result (λ flips. flips.items ≡ gap ∷ []) }
{
    let mut flips = Vec::new(alloc);
    flips.push(gap)?;
    Ok(flips)
}

/// The number of the key, where no item is greater than `most` and the number is less than 2^64. Other keys have others.
fn number_of(most: u32, key: &[u32]) -> Option<u64>
    ensures { result ≡ spec.number_of most key.now }
{
    let mut number = 1;
    for i in (0..key.len()).rev() {
        number = with(most, number, key[i])?;
    }
    Some(number)
}

/// The number with one item more behind it, where there is one.
#[inline(always)]
fn with(most: u32, number: u64, item: u32) -> Option<u64>
    ensures { result ≡ with_digit most (2 ^ 64) item number }
{
    if item > most {
        return None;
    }
    number
        .checked_mul(most as u64 + 2)?
        .checked_add(item as u64)
}

/// Whether what flips in these gaps is true in the gap, and since when.
pub(crate) fn look_at(flips: &[u32], gap: u32) -> Look
    requires { IsNonDecreasing flips.now }
    ensures since { result.since ≤ gap }
    ensures same { (j : ℕ) → result.since ≤ j → j ≤ gap → spec.is_true_in j flips.now ≡ result.truth }
{
    let count = flips.partition_point(|flip| *flip <= gap);
    if count == 0 {
        return Look {
            truth: false,
            since: 0,
        };
    }
    Look {
        truth: count % 2 == 1,
        since: flips[count - 1],
    }
}

/// Makes it true, or false, from the gap on, which is the last.
fn turn(flips: &mut Vec<u32>, gap: u32, truth: bool) -> Result<(), Memory>
    requires { spec.AreWithin gap flips.old.items }
    ensures turned { OnOk result (spec.IsTurned gap truth flips.old.items flips.new.items) }
    ensures unchanged { OnErr result (flips.new.items ≡ flips.old.items) }
{
    if (flips.len() % 2 == 1) == truth {
        return Ok(());
    }
    if let Some(last) = flips.as_slice().last() {
        if *last == gap {
            flips.pop();
            return Ok(());
        }
    }
    flips.push(gap)?;
    Ok(())
}
