//! A table whose rows come and go.
ghost use Rattle.std.specs.Prelude.{◌≡◌, ◌+◌, ◌^◌, [], ◌∷◌, ◌++◌, not, find, filter, map, nat_lt, length, OnOk, OnErr, IfOk};
ghost use Rattle.std.specs.Option.{option_copied};
ghost use Rattle.std.specs.List.{list_any};
ghost use Rattle.row_table.specs.Table.{changed_first, least_by, settled, updated};

use crate::OutOfMemory;
use crate::changes::{Change, change_all_in};
use crate::lists::all_in;
use crate::pushes::push_all_in;
use crate::rows::{first_at, push_row, remove_all_in};
use crate::updates::{Update, apply_in, update_first_in};
use row_index::{Keyed, Keys, Query, Ranked, has_any, least_number};
use std::alloc::{AllocError, Global};
use std::collections::BTreeMap;
use std::collections::btree_map::Values;
use std::marker::Model;

/// Rows in the order in which they were added, in a tree: they come, change and go.
#[derive(Drop)]
pub struct RowTable<T: Keyed> {
    rows: BTreeMap<u64, T>,
    keys: Keys,
    next: u64,
}

impl<T: Keyed> Model for RowTable<T> {
    ghost use Rattle.std.specs.Prelude.{List};
    ghost use Rattle.std.specs.Coded.{coded_list};
    ghost use Rattle.std.specs.Map.{values_of};
    ghost use Rattle.row_index.specs.Index.{IsIndexed, row_at};
    ghost use Rattle.row_table.specs.Table.{AreBelow};

    ghost Value = { List T };

    ghost coded = { coded_list T.code };

    ghost view = { λ a. values_of a.rows.entries };

    ghost invariant = { λ a. AreBelow a.next a.rows.entries × IsIndexed T.keys (row_at a.rows.entries) a.keys.entries };
}

// Whether there are so many numbers from this one on, and one more.
fn have_numbers(next: u64, count: usize) -> bool
    ensures { result ≡ nat_lt (next + count) (2 ^ 64) }
{
    count as u64 <= u64::MAX - next
}

impl<T: Keyed> RowTable<T> {
    /// No rows.
    pub fn new(alloc: Global) -> RowTable<T>
        ensures { result ≡ [] }
    {
        RowTable {
            rows: BTreeMap::new(alloc),
            keys: Keys::new(alloc),
            next: 0,
        }
    }

    /// How many rows there are.
    pub fn count(&self) -> usize
        ensures { result ≡ length self.now }
    {
        self.rows.len()
    }

    /// The first row that passes.
    pub fn first<Q: Query<T>>(&self, query: &Q) -> Option<&T>
        ensures { option_copied result ≡ find (Q.passes query.now) self.now }
    {
        match first_at(&self.rows, &self.keys, query) {
            Some(number) => self.rows.get(&number),
            None => None,
        }
    }

    /// The row of the least rank that passes, and of several the first.
    pub fn least<Q: Query<T>>(&self, query: &Q) -> Option<&T>
    where
        T: Ranked,
        ensures { option_copied result ≡ least_by T.rank (Q.passes query.now) self.now }
    {
        let _count = self.rows.len();
        match least_number::<T, BTreeMap<u64, T>, Q>(&self.rows, &self.keys, query) {
            Some(number) => self.rows.get(&number),
            None => None,
        }
    }

    /// Whether a row passes.
    pub fn any<Q: Query<T>>(&self, query: &Q) -> bool
        ensures { result ≡ list_any (Q.passes query.now) self.now }
    {
        let _count = self.rows.len();
        has_any::<T, BTreeMap<u64, T>, Q>(&self.rows, &self.keys, query)
    }

    /// All rows that pass, in row order. The error is want of memory.
    pub fn all<Q: Query<T>>(&self, alloc: Global, query: &Q) -> Result<Vec<&T>, OutOfMemory>
        ensures { IfOk result (λ v. map (λ r. r.now) v.items ≡ filter (Q.passes query.now) self.now) }
    {
        all_in(alloc, &self.rows, &self.keys, query)
    }

    /// Changes the first row that passes. The error is want of memory.
    pub fn update_first<U: Update<T>>(&mut self, update: U) -> Result<(), OutOfMemory>
        ensures ok { OnOk result (self.new ≡ changed_first (U.passes update) (U.after update) self.old) }
        ensures err { OnErr result (self.new ≡ self.old) }
    {
        update_first_in(&mut self.rows, &mut self.keys, self.next, update)
    }

    /// Adds a row at the end. The error is want of memory.
    pub fn push(&mut self, row: T) -> Result<(), OutOfMemory>
        ensures ok { OnOk result (self.new ≡ self.old ++ row ∷ []) }
        ensures err { OnErr result (self.new ≡ self.old) }
    {
        if !have_numbers(self.next, 1) {
            return Err(AllocError);
        }
        push_row(&mut self.rows, &mut self.keys, self.next, row)?;
        self.next += 1;
        Ok(())
    }

    /// Adds the rows at the end, all or none. The error is want of memory.
    pub fn push_all(&mut self, rows: Vec<T>) -> Result<(), OutOfMemory>
        ensures ok { OnOk result (self.new ≡ self.old ++ rows.items) }
        ensures err { OnErr result (self.new ≡ self.old) }
    {
        let count = rows.len();
        if !have_numbers(self.next, count) {
            return Err(AllocError);
        }
        push_all_in(&mut self.rows, &mut self.keys, self.next, rows)?;
        self.next += count as u64;
        Ok(())
    }

    /// Does the updates in turn, each of the first row that passes it, and adds the rows at the
    /// end: all or nothing. The error is want of memory.
    pub fn apply<U: Update<T>>(&mut self, updates: Vec<U>, rows: Vec<T>) -> Result<(), OutOfMemory>
        ensures ok { OnOk result (self.new ≡ updated U.passes U.after updates.items self.old ++ rows.items) }
        ensures err { OnErr result (self.new ≡ self.old) }
    {
        let count = rows.len();
        if !have_numbers(self.next, count) {
            return Err(AllocError);
        }
        apply_in(&mut self.rows, &mut self.keys, self.next, updates, rows)?;
        self.next += count as u64;
        Ok(())
    }

    /// The rows in row order, lent one by one.
    pub fn iter(&self) -> Values<'_, u64, T>
        ensures { result ≡ self.now }
    {
        self.rows.values()
    }

    /// Removes all rows that pass. It takes no memory.
    pub fn remove_all<Q: Query<T>>(&mut self, query: &Q)
        ensures { self.new ≡ filter (λ r. not (Q.passes query.now r)) self.old }
    {
        remove_all_in(&mut self.rows, &mut self.keys, self.next, query);
    }

    /// Changes all rows that pass, in place. It takes no memory.
    pub fn change_all<C: Change<T>>(&mut self, change: &C)
        ensures { self.new ≡ map (settled (C.passes change.now) (C.after change.now)) self.old }
    {
        change_all_in(&mut self.rows, &mut self.keys, self.next, change);
    }
}
