ghost use Rattle.std.specs.Prelude.{ℕ, ◌≡◌, set, get_or, slice_get, Some, Contains};
ghost use Rattle.gap_pass.specs.Least.{IsLeast};

/// The number at a place, or 0 where there is none.
pub(crate) fn number_at(numbers: &[u32], place: u32) -> u32
    ensures { result ≡ get_or numbers.now place 0 }
{
    match numbers.get(place as usize) {
        Some(number) => *number,
        None => 0,
    }
}

/// Puts a number at a place, where there is one.
pub(crate) fn put(numbers: &mut Vec<u32>, place: u32, number: u32)
    ensures { numbers.new.items ≡ set numbers.old.items place number }
{
    if (place as usize) < numbers.len() {
        numbers[place as usize] = number;
    }
}

/// The least of a number and of those at these places.
pub(crate) fn least(numbers: &[u32], places: &[u32], most: u32) -> u32
    ensures { IsLeast numbers.now most (Contains places.now) result }
{
    let mut least = most;
    for place in places {
        least = least.min(number_at(numbers, *place));
    }
    least
}

/// The least of a number and of those at the places of these children.
pub(crate) fn least_of(numbers: &[u32], children: &[u32], of: &[u32], most: u32) -> u32
    ensures { IsLeast numbers.now most (λ x. (j : ℕ) × Contains of.now j × (slice_get children.now j ≡ Some x)) result }
{
    let mut least = most;
    for child in of {
        if let Some(place) = children.get(*child as usize) {
            least = least.min(number_at(numbers, *place));
        }
    }
    least
}
