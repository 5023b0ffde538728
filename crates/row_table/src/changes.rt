//! Changes of rows in place.
ghost use Rattle.std.specs.Prelude.{◌≡◌, ℕ, ℤ, ◌<◌, Bool, Option, true, map, length, filter, IsTrue, IsSome, false};
ghost use Rattle.row_index.specs.Index.{IsIndexed, row_at};
ghost use Rattle.row_table.specs.Table.{AreBelow, HasNoNewKeys, changed_at, entry_settled};

use crate::rows::any_at;
use row_index::{Keyed, Keys, Query, drop_lost_key};
use std::collections::BTreeMap;

/// A change of the rows that pass. It brings no new key, and a changed row passes no more.
pub trait Change<T: Keyed>: Query<T> {
    ghost after: { Self → T → T };

    /// Changes the row. It takes no memory.
    fn change(&self, row: &mut T)
        ensures { row.new ≡ after self.now row.old };

    /// A key that a changed row may have lost, and that then leaves the index. To name none, or one
    /// that the row still has, does no harm.
    fn lost(&self) -> Option<(u64, i64)>;

    ghost keeps: { (c : Self) (r : T) → HasNoNewKeys (T.keys r) (T.keys (after c r)) };

    ghost settles: { (c : Self) (r : T) → Self.passes c r ≡ true → Self.passes c (after c r) ≡ false };
}

fn change_row<T: Keyed, C: Change<T>>(
    rows: &mut BTreeMap<u64, T>,
    keys: &mut Keys,
    number: u64,
    change: &C,
)
    requires there { IsSome (row_at rows.old.entries number) }
    requires indexed { IsIndexed T.keys (row_at rows.old.entries) keys.old.entries }
    ensures rows { rows.new.entries ≡ changed_at number (C.after change.now) rows.old.entries }
    ensures indexed { IsIndexed T.keys (row_at rows.new.entries) keys.new.entries }
{
    if let Some(row) = rows.get_mut(&number) {
        change.change(row);
        if let Some(key) = change.lost() {
            drop_lost_key(keys, number, row, key);
        }
    }
}

// Changes a row that passes. Answers whether there was one.
fn change_next<T: Keyed, C: Change<T>>(
    rows: &mut BTreeMap<u64, T>,
    keys: &mut Keys,
    next: u64,
    change: &C,
) -> bool
    requires below { AreBelow next rows.old.entries }
    requires indexed { IsIndexed T.keys (row_at rows.old.entries) keys.old.entries }
    ensures kept { map (entry_settled (C.passes change.now) (C.after change.now)) rows.new.entries ≡ map (entry_settled (C.passes change.now) (C.after change.now)) rows.old.entries }
    ensures fewer { IsTrue result → length (filter (λ e. C.passes change.now e.1) rows.new.entries) < length (filter (λ e. C.passes change.now e.1) rows.old.entries) }
    ensures last { result ≡ false → map (entry_settled (C.passes change.now) (C.after change.now)) rows.new.entries ≡ rows.new.entries }
    ensures below { AreBelow next rows.new.entries }
    ensures indexed { IsIndexed T.keys (row_at rows.new.entries) keys.new.entries }
{
    match any_at(rows, keys, change) {
        Some(number) => {
            change_row(rows, keys, number, change);
            true
        }
        None => false,
    }
}

/// Changes all rows that pass.
pub fn change_all_in<T: Keyed, C: Change<T>>(
    rows: &mut BTreeMap<u64, T>,
    keys: &mut Keys,
    next: u64,
    change: &C,
)
    requires below { AreBelow next rows.old.entries }
    requires indexed { IsIndexed T.keys (row_at rows.old.entries) keys.old.entries }
    ensures rows { rows.new.entries ≡ map (entry_settled (C.passes change.now) (C.after change.now)) rows.old.entries }
    ensures below { AreBelow next rows.new.entries }
    ensures indexed { IsIndexed T.keys (row_at rows.new.entries) keys.new.entries }
{
    while change_next(rows, keys, next, change) {}
}
