//! Look-ups that answer several rows.
ghost use Rattle.std.specs.Prelude.{◌≡◌, IfOk, filter, map};
ghost use Rattle.std.specs.Map.{keys_of, values_of};
ghost use Rattle.row_index.specs.Index.{IsIndexed, row_at};
ghost use Rattle.row_table.specs.Table.{rows_of};

use crate::OutOfMemory;
use row_index::{Keyed, Keys, Query, all_numbers};
use std::alloc::Global;
use std::collections::BTreeMap;

// The rows of these numbers, in turn.
fn rows_of<'a, T: Keyed>(
    alloc: Global,
    rows: &'a BTreeMap<u64, T>,
    numbers: &BTreeMap<u64, ()>,
) -> Result<Vec<&'a T>, OutOfMemory>
    ensures { IfOk result (λ v. map (λ r. r.now) v.items ≡ rows_of rows.now.entries (keys_of numbers.now.entries)) }
{
    let mut found = Vec::new(alloc);
    for number in numbers.keys() {
        if let Some(row) = rows.get(number) {
            found.push(row)?;
        }
    }
    Ok(found)
}

/// All rows that pass, in row order. The error is want of memory.
pub fn all_in<'a, T: Keyed, Q: Query<T>>(
    alloc: Global,
    rows: &'a BTreeMap<u64, T>,
    keys: &Keys,
    query: &Q,
) -> Result<Vec<&'a T>, OutOfMemory>
    requires { IsIndexed T.keys (row_at rows.now.entries) keys.now.entries }
    ensures { IfOk result (λ v. map (λ r. r.now) v.items ≡ filter (Q.passes query.now) (values_of rows.now.entries)) }
{
    let _count = rows.len();
    let numbers = all_numbers::<T, BTreeMap<u64, T>, Q>(alloc, rows, keys, query)?;
    let _found = numbers.len();
    rows_of(alloc, rows, &numbers)
}
