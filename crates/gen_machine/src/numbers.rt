//! Numbers of states, regions and blocks.

ghost use Rattle.std.specs.Prelude.{◌≡◌, ◌+◌, IfOk};

use std::alloc::AllocError;

/// The sum, unless it is too large for a number.
pub fn sum(number: u32, more: u32) -> Result<u32, AllocError>
    ensures { IfOk result (λ n. n ≡ number + more) }
{
    match number.checked_add(more) {
        Some(sum) => Ok(sum),
        None => Err(AllocError),
    }
}

/// The number behind this one.
pub fn next(number: u32) -> Result<u32, AllocError>
    ensures { IfOk result (λ n. n ≡ number + 1) }
{
    sum(number, 1)
}
