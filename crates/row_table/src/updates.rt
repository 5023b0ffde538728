//! Changes that bring new keys, each of one row, alone or several at once.
ghost use Rattle.std.specs.Prelude.{◌≡◌, ◌+◌, ◌^◌, ◌<◌, ◌++◌, OnOk, OnErr, IfOk, vec_len};
ghost use Rattle.std.specs.Map.{values_of};
ghost use Rattle.row_index.specs.Index.{IsIndexed, row_at};
ghost use Rattle.row_table.specs.Table.{AreBelow, AreShown, BringsOnly, changed_at, changed_each, changed_first, placed, updated};

use crate::OutOfMemory;
use crate::pushes::push_all_in;
use crate::rows::first_at;
use row_index::{Keyed, Keys, Query, add_keys};
use std::collections::{BTreeMap, VecDeque};

/// A change of the first row that passes, by a value that took its memory before. Its own keys are
/// those that the row may get by it.
pub trait Update<T: Keyed>: Query<T> + Keyed {
    ghost after: { Self → T → T };

    /// Changes the row. It takes no memory.
    fn update(self, row: &mut T)
        ensures { row.new ≡ after self row.old };

    ghost brings: { (u : Self) (r : T) → BringsOnly (T.keys r) (T.keys (after u r)) (Self.keys u) };

    ghost stays: { (u v : Self) (r : T) → Self.passes u (after v r) ≡ Self.passes u r };
}

fn update_row<T: Keyed, U: Update<T>>(rows: &mut BTreeMap<u64, T>, number: u64, update: U)
    ensures { rows.new.entries ≡ changed_at number (U.after update) rows.old.entries }
{
    if let Some(row) = rows.get_mut(&number) {
        update.update(row);
    }
}

/// Changes the first row that passes.
pub fn update_first_in<T: Keyed, U: Update<T>>(
    rows: &mut BTreeMap<u64, T>,
    keys: &mut Keys,
    next: u64,
    update: U,
) -> Result<(), OutOfMemory>
    requires below { AreBelow next rows.old.entries }
    requires indexed { IsIndexed T.keys (row_at rows.old.entries) keys.old.entries }
    ensures ok { OnOk result (values_of rows.new.entries ≡ changed_first (U.passes update) (U.after update) (values_of rows.old.entries)) }
    ensures err { OnErr result (values_of rows.new.entries ≡ values_of rows.old.entries) }
    ensures below { AreBelow next rows.new.entries }
    ensures indexed { IsIndexed T.keys (row_at rows.new.entries) keys.new.entries }
{
    if let Some(number) = first_at(rows, keys, &update) {
        add_keys(keys, number, &update)?;
        update_row(rows, number, update);
    }
    Ok(())
}

// Finds the row that each update changes, and adds the keys that it may get.
fn place_updates<T: Keyed, U: Update<T>>(
    rows: &BTreeMap<u64, T>,
    keys: &mut Keys,
    updates: Vec<U>,
) -> Result<VecDeque<(u64, U)>, OutOfMemory>
    requires { IsIndexed T.keys (row_at rows.now.entries) keys.old.entries }
    ensures placed { IfOk result (λ q. q.items ≡ placed U.passes rows.now.entries updates.items) }
    ensures shown { IfOk result (λ q. AreShown U.keys keys.new.entries q.items) }
    ensures indexed { IsIndexed T.keys (row_at rows.now.entries) keys.new.entries }
{
    let mut found = VecDeque::new(*updates.allocator());
    for update in updates {
        if let Some(number) = first_at(rows, keys, &update) {
            add_keys(keys, number, &update)?;
            found.push_back((number, update))?;
        }
    }
    Ok(found)
}

fn update_each<T: Keyed, U: Update<T>>(
    rows: &mut BTreeMap<u64, T>,
    keys: &Keys,
    mut found: VecDeque<(u64, U)>,
)
    requires shown { AreShown U.keys keys.now.entries found.items }
    requires indexed { IsIndexed T.keys (row_at rows.old.entries) keys.now.entries }
    ensures rows { rows.new.entries ≡ changed_each U.after found.items rows.old.entries }
    ensures indexed { IsIndexed T.keys (row_at rows.new.entries) keys.now.entries }
{
    while let Some((number, update)) = found.pop_front() {
        update_row(rows, number, update);
    }
}

/// Does the updates in turn, and adds the rows under numbers from the start on: all or nothing.
pub fn apply_in<T: Keyed, U: Update<T>>(
    rows: &mut BTreeMap<u64, T>,
    keys: &mut Keys,
    start: u64,
    updates: Vec<U>,
    made: Vec<T>,
) -> Result<(), OutOfMemory>
    requires below { AreBelow start rows.old.entries }
    requires indexed { IsIndexed T.keys (row_at rows.old.entries) keys.old.entries }
    requires room { start + vec_len made < 2 ^ 64 }
    ensures ok { OnOk result (values_of rows.new.entries ≡ updated U.passes U.after updates.items (values_of rows.old.entries) ++ made.items) }
    ensures err { OnErr result (rows.new.entries ≡ rows.old.entries) }
    ensures below { OnOk result (AreBelow (start + vec_len made) rows.new.entries) }
    ensures indexed { IsIndexed T.keys (row_at rows.new.entries) keys.new.entries }
{
    // All that takes memory comes before the first change of a row.
    let _count = rows.len();
    let found = place_updates(rows, keys, updates)?;
    push_all_in(rows, keys, start, made)?;
    update_each(rows, keys, found);
    Ok(())
}
