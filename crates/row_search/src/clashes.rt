//! Rows that clash with a later row of their table.
ghost use Rattle.std.specs.Prelude.{◌+◌, ◌<◌, ◌^◌, ◌≡◌, IfOk, length};
ghost use Rattle.laws_unsound.specs.Rows.{first_clashing};

use crate::OutOfMemory;
use crate::index::{Rows, Seeking};
use std::alloc::Global;

/// The first row that clashes with a later one, where so many rows stand before the table's first.
///
/// Rows are taken from the end: the last that clashes with one that was taken is the first.
pub fn first_clashing<T, K: Seeking<T, T>>(
    alloc: Global,
    before: u64,
    rows: &[T],
    clash: &K,
) -> Result<Option<u64>, OutOfMemory>
    requires { before + length rows.now < 2 ^ 64 }
    ensures { IfOk result (λ row. row ≡ first_clashing before (K.holds clash.now) rows.now) }
{
    let mut later = Rows::new(alloc, clash);
    let mut least = None;
    let mut left = rows;
    while let Some((row, others)) = left.split_last() {
        let clashes = later.any(clash, row);
        later.push(row)?;
        left = others;
        if clashes {
            least = Some(before + others.len() as u64);
        }
    }
    Ok(least)
}
