ghost use Rattle.std.specs.Prelude.{◌≡◌, ◌+◌, ◌*◌, ◌<◌, ◌^◌, IfSome};
ghost use Rattle.plan_model.specs.Numbers.{with_digit};
ghost use Rattle.ground_state.specs.Numbers as spec;

/// What numbers lists of objects: where the objects are small, and the list has few, it has a small number of its own.
#[derive(Clone, Copy)]
pub struct Numbers {
    /// Only lists of objects up to this one have numbers.
    pub(crate) most: u32,
    /// Numbers are less than this, but for that of the empty list.
    pub(crate) room: u32,
}

/// A row of numbers, one for each object: `first` for object 0, and `step` more for each next one.
#[derive(Clone, Copy)]
pub struct Row {
    pub(crate) first: u64,
    pub(crate) step: u64,
}

impl Row {
    /// The number at this object.
    #[inline(always)]
    pub(crate) fn at(self, object: u32) -> usize
        requires { self.first + self.step * object < 2 ^ 32 }
        ensures { result ≡ self.first + self.step * object }
    {
        (self.first + self.step * object as u64) as usize
    }
}

impl Numbers {
    /// The number with one digit more behind it, where there is one.
    pub(crate) fn with(self, number: u64, object: u32) -> Option<u64>
        requires { number + 1 < 2 ^ 32 }
        ensures number { result ≡ with_digit self.most self.room object number }
        ensures small { IfSome result (λ n. n + 1 < 2 ^ 32) }
    {
        if object > self.most {
            return None;
        }
        let number = number * (self.most as u64 + 2) + object as u64;
        if number >= self.room as u64 {
            return None;
        }
        Some(number)
    }

    /// The number of the list. Two lists with numbers have different ones.
    pub(crate) fn of(self, objects: &[u32]) -> Option<usize>
        ensures number { result ≡ spec.number_of self objects.now }
        ensures small { IfSome result (λ n. n + 1 < 2 ^ 32) }
    {
        let mut number = 1;
        for i in (0..objects.len()).rev() {
            number = self.with(number, objects[i])?;
        }
        Some(number as usize)
    }
}
