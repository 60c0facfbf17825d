//! Counts that must fit. One that does not is want of memory: what is counted stands in memory.

ghost use Rattle.std.specs.Prelude.{◌≡◌, ◌+◌, IfOk};

use std::alloc::AllocError;

/// A count as a u32.
pub fn count(n: usize) -> Result<u32, AllocError>
    ensures { IfOk result (λ count. count ≡ n) }
{
    match u32::try_from(n) {
        Ok(count) => Ok(count),
        Err(_) => Err(AllocError),
    }
}

/// A count of one more.
pub fn one_more(n: u32) -> Result<u32, AllocError>
    ensures { IfOk result (λ next. next ≡ n + 1) }
{
    match n.checked_add(1) {
        Some(next) => Ok(next),
        None => Err(AllocError),
    }
}
