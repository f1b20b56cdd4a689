ghost use Rattle.std.specs.Prelude.{◌≡◌, ◌≤◌, ◌^◌, IfOk, OnErr};

use crate::memory::Memory;

/// A length as a number of 32 bits. 2^32 and more are answered as want of memory.
pub fn number(len: usize) -> Result<u32, Memory>
    ensures same { IfOk result (λ number. number ≡ len) }
    ensures too_long { OnErr result (2 ^ 32 ≤ len) }
{
    match u32::try_from(len) {
        Ok(number) => Ok(number),
        Err(_) => Err(Memory),
    }
}
