//! Several rows added at once.
ghost use Rattle.std.specs.Prelude.{◌≡◌, ◌+◌, ◌^◌, ◌<◌, ◌++◌, OnOk, OnErr, filter, nat_lt, vec_len};
ghost use Rattle.row_index.specs.Index.{IsIndexed, IsMore, row_at};
ghost use Rattle.row_table.specs.Table.{AreBelow, numbered_from};

use crate::OutOfMemory;
use crate::rows::push_row;
use row_index::{Keyed, Keys};
use std::alloc::AllocError;
use std::collections::BTreeMap;

// Takes the rows from that number on back.
fn take_back<T: Keyed>(rows: &mut BTreeMap<u64, T>, start: u64)
    ensures { rows.new.entries ≡ filter (λ e. nat_lt e.0 start) rows.old.entries }
{
    rows.retain(|number, _| *number < start);
}

// Adds the rows in turn. An error leaves those before.
fn push_each<T: Keyed>(
    rows: &mut BTreeMap<u64, T>,
    keys: &mut Keys,
    start: u64,
    made: Vec<T>,
) -> Result<(), OutOfMemory>
    requires below { AreBelow start rows.old.entries }
    requires indexed { IsIndexed T.keys (row_at rows.old.entries) keys.old.entries }
    requires room { start + vec_len made < 2 ^ 64 }
    ensures ok { OnOk result (rows.new.entries ≡ rows.old.entries ++ numbered_from start made.items) }
    ensures kept { filter (λ e. nat_lt e.0 start) rows.new.entries ≡ rows.old.entries }
    ensures more { IsMore keys.old.entries keys.new.entries }
    ensures indexed { IsIndexed T.keys (row_at rows.new.entries) keys.new.entries }
    ensures below { OnOk result (AreBelow (start + vec_len made) rows.new.entries) }
{
    let mut number = start;
    for row in made {
        push_row(rows, keys, number, row)?;
        number += 1;
    }
    Ok(())
}

/// Adds the rows under numbers from the start on, all or none.
pub fn push_all_in<T: Keyed>(
    rows: &mut BTreeMap<u64, T>,
    keys: &mut Keys,
    start: u64,
    made: Vec<T>,
) -> Result<(), OutOfMemory>
    requires below { AreBelow start rows.old.entries }
    requires indexed { IsIndexed T.keys (row_at rows.old.entries) keys.old.entries }
    requires room { start + vec_len made < 2 ^ 64 }
    ensures ok { OnOk result (rows.new.entries ≡ rows.old.entries ++ numbered_from start made.items) }
    ensures err { OnErr result (rows.new.entries ≡ rows.old.entries) }
    ensures more { IsMore keys.old.entries keys.new.entries }
    ensures indexed { IsIndexed T.keys (row_at rows.new.entries) keys.new.entries }
    ensures below { OnOk result (AreBelow (start + vec_len made) rows.new.entries) }
{
    if push_each(rows, keys, start, made).is_err() {
        take_back(rows, start);
        return Err(AllocError);
    }
    Ok(())
}
