//! Rows under ascending numbers, one at a time.
ghost use Rattle.std.specs.Prelude.{◌≡◌, ℕ, ◌<◌, [], ◌∷◌, ◌++◌, true, not, length, filter, find, None, Some, OnOk, OnErr, IsTrue, IsSome, false};
ghost use Rattle.std.specs.Map.{keys_of, remove_entry};
ghost use Rattle.std.specs.List.Sorted.{IsStrictlySortedBy};
ghost use Rattle.std.specs.BTreeMap.{is_at};
ghost use Rattle.std.specs.Ordering.{nat_cmp};
ghost use Rattle.row_index.specs.Index.{IsIndexed, IsMore, IsPassing, row_at};
ghost use Rattle.row_table.specs.Table.{AreBelow, number_of_first};

use crate::OutOfMemory;
use row_index::{Keyed, Keys, Query, add_keys, any_number, first_number, remove_keys};
use std::collections::BTreeMap;

/// The number of the first row that passes.
pub fn first_at<T: Keyed, Q: Query<T>>(
    rows: &BTreeMap<u64, T>,
    keys: &Keys,
    query: &Q,
) -> Option<u64>
    requires { IsIndexed T.keys (row_at rows.now.entries) keys.now.entries }
    ensures value { result ≡ number_of_first (Q.passes query.now) rows.now.entries }
    ensures ordered { IsStrictlySortedBy nat_cmp (keys_of rows.now.entries) }
{
    let _count = rows.len();
    first_number::<T, BTreeMap<u64, T>, Q>(rows, keys, query)
}

/// The number of a row that passes, whichever is met first.
pub fn any_at<T: Keyed, Q: Query<T>>(rows: &BTreeMap<u64, T>, keys: &Keys, query: &Q) -> Option<u64>
    requires { IsIndexed T.keys (row_at rows.now.entries) keys.now.entries }
    ensures found { (n : ℕ) → result ≡ Some n → IsPassing (row_at rows.now.entries) (Q.passes query.now) n }
    ensures missing { result ≡ None → find (λ e. Q.passes query.now e.1) rows.now.entries ≡ None }
{
    let _count = rows.len();
    any_number::<T, BTreeMap<u64, T>, Q>(rows, keys, query)
}

/// Adds a row at the end, under a number above all others. The error is want of memory.
pub fn push_row<T: Keyed>(
    rows: &mut BTreeMap<u64, T>,
    keys: &mut Keys,
    number: u64,
    row: T,
) -> Result<(), OutOfMemory>
    requires below { AreBelow number rows.old.entries }
    requires indexed { IsIndexed T.keys (row_at rows.old.entries) keys.old.entries }
    ensures ok { OnOk result (rows.new.entries ≡ rows.old.entries ++ (number, row) ∷ []) }
    ensures err { OnErr result (rows.new.entries ≡ rows.old.entries) }
    ensures more { IsMore keys.old.entries keys.new.entries }
    ensures indexed { IsIndexed T.keys (row_at rows.new.entries) keys.new.entries }
{
    add_keys(keys, number, &row)?;
    rows.insert(number, row)?;
    Ok(())
}

fn remove_row<T: Keyed>(rows: &mut BTreeMap<u64, T>, keys: &mut Keys, number: u64)
    requires { IsIndexed T.keys (row_at rows.old.entries) keys.old.entries }
    ensures rows { rows.new.entries ≡ remove_entry (is_at (nat_cmp number)) rows.old.entries }
    ensures indexed { IsIndexed T.keys (row_at rows.new.entries) keys.new.entries }
{
    if let Some(row) = rows.remove(&number) {
        remove_keys(keys, number, &row);
    }
}

// Removes a row that passes. Answers whether there was one.
fn remove_next<T: Keyed, Q: Query<T>>(
    rows: &mut BTreeMap<u64, T>,
    keys: &mut Keys,
    next: u64,
    query: &Q,
) -> bool
    requires below { AreBelow next rows.old.entries }
    requires indexed { IsIndexed T.keys (row_at rows.old.entries) keys.old.entries }
    ensures kept { filter (λ e. not (Q.passes query.now e.1)) rows.new.entries ≡ filter (λ e. not (Q.passes query.now e.1)) rows.old.entries }
    ensures shorter { IsTrue result → length rows.new.entries < length rows.old.entries }
    ensures last { result ≡ false → filter (λ e. not (Q.passes query.now e.1)) rows.new.entries ≡ rows.new.entries }
    ensures below { AreBelow next rows.new.entries }
    ensures indexed { IsIndexed T.keys (row_at rows.new.entries) keys.new.entries }
{
    match any_at(rows, keys, query) {
        Some(number) => {
            remove_row(rows, keys, number);
            true
        }
        None => false,
    }
}

/// Removes all rows that pass.
pub fn remove_all_in<T: Keyed, Q: Query<T>>(
    rows: &mut BTreeMap<u64, T>,
    keys: &mut Keys,
    next: u64,
    query: &Q,
)
    requires below { AreBelow next rows.old.entries }
    requires indexed { IsIndexed T.keys (row_at rows.old.entries) keys.old.entries }
    ensures rows { rows.new.entries ≡ filter (λ e. not (Q.passes query.now e.1)) rows.old.entries }
    ensures below { AreBelow next rows.new.entries }
    ensures indexed { IsIndexed T.keys (row_at rows.new.entries) keys.new.entries }
{
    while remove_next(rows, keys, next, query) {}
}
