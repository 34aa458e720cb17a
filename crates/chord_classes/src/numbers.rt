//! Numbers of classes, methods and members as the table and the plan have them.
#![tactic(auto)]

ghost use Rattle.std.specs.Prelude.{◌≡◌, ◌≤◌, ◌+◌, IfOk, OnErr};

use std::alloc::AllocError;

/// The same number. One that does not fit is of a program that no memory holds.
pub fn narrow(number: usize) -> Result<u32, AllocError>
    ensures same { IfOk result (λ same. same ≡ number) }
    ensures large { OnErr result (4294967296 ≤ number) }
{
    match u32::try_from(number) {
        Ok(same) => Ok(same),
        Err(_) => Err(AllocError),
    }
}

/// The number that lies so many after another. One that does not fit is of a program that no memory holds.
pub fn after(number: u32, more: usize) -> Result<u32, AllocError>
    ensures next { IfOk result (λ next. next ≡ number + more) }
    ensures large { OnErr result (4294967296 ≤ number + more) }
{
    let more = narrow(more)?;
    match number.checked_add(more) {
        Some(next) => Ok(next),
        None => Err(AllocError),
    }
}
