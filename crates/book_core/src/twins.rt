//! Twins of several values. Of types of which nothing is known each way out is short.
ghost use Rattle.std.specs.Prelude.{◌≡◌, IfOk};

use crate::OutOfMemory;
use book_rows::{Items, Twin};
use std::alloc::Global;

/// Twins of two values. The error is want of memory.
pub fn twin_both<A: Twin, B: Twin>(
    alloc: Global,
    first: &A,
    second: &B,
) -> Result<(A, B), OutOfMemory>
    ensures first { IfOk result (λ both. both.0 ≡ first.now) }
    ensures second { IfOk result (λ both. both.1 ≡ second.now) }
{
    let first = first.twin(alloc)?;
    let second = second.twin(alloc)?;
    Ok((first, second))
}

/// Twins of the items of two lists.
pub fn twin_lists<A: Twin, B: Twin>(
    alloc: Global,
    first: &[A],
    second: &[B],
) -> Result<(Items<A>, Items<B>), OutOfMemory>
    ensures first { IfOk result (λ both. both.0 ≡ first.now) }
    ensures second { IfOk result (λ both. both.1 ≡ second.now) }
{
    let first = Items::twin_of(alloc, first)?;
    let second = Items::twin_of(alloc, second)?;
    Ok((first, second))
}
