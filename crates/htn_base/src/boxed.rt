ghost use Rattle.std.specs.Prelude.{◌≡◌, IfOk};

use crate::memory::Memory;
use std::alloc::Global;
use std::marker::Model;

/// A value on the heap, which contracts see as the value itself. It stands where a type holds itself.
pub struct Boxed<T> {
    owned: Box<T>,
}

impl<T: Drop> Drop for Boxed<T> {
    fn drop(self) {
        let Boxed { owned: _ } = self;
    }
}

impl<T> Model for Boxed<T> {
    ghost Value = { T };

    ghost coded = { T.code };

    ghost view = { λ boxed. boxed.owned.value };
}

impl<T> Boxed<T> {
    /// The owned value.
    pub fn get(&self) -> &T
        ensures value { result.now ≡ self.now }
    {
        &self.owned
    }
}

impl<T: Drop> Boxed<T> {
    /// Puts a value on the heap. After `Memory` the value is dropped.
    pub fn new(alloc: Global, value: T) -> Result<Boxed<T>, Memory>
        ensures value { IfOk result (λ boxed. boxed ≡ value) }
    {
        let owned = Box::new(alloc, value)?;
        Ok(Boxed { owned })
    }
}
