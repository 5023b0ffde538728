//! A table whose rows stay.
ghost use Rattle.std.specs.Prelude.{◌≡◌, [], ◌∷◌, ◌++◌, find, length, OnOk, OnErr};
ghost use Rattle.std.specs.Option.{option_copied};
ghost use Rattle.std.specs.List.{list_any};

use crate::OutOfMemory;
use row_index::{Keyed, Keys, Numbered, Query, add_keys, first_number, has_any};
use std::alloc::Global;
use std::marker::Model;

/// Rows in the order in which they were added, in a vector: they only come, and each has its place
/// for good.
#[derive(Drop)]
pub struct RowList<T: Keyed> {
    rows: Vec<T>,
    keys: Keys,
}

impl<T: Keyed> Model for RowList<T> {
    ghost use Rattle.std.specs.Prelude.{List, slice_get};
    ghost use Rattle.std.specs.Coded.{coded_list};
    ghost use Rattle.row_index.specs.Index.{IsIndexed};

    ghost Value = { List T };

    ghost coded = { coded_list T.code };

    ghost view = { λ a. a.rows.items };

    ghost invariant = { λ a. IsIndexed T.keys (slice_get a.rows.items) a.keys.entries };
}

impl<T: Keyed> RowList<T> {
    /// No rows.
    pub fn new(alloc: Global) -> RowList<T>
        ensures { result ≡ [] }
    {
        RowList {
            rows: Vec::new(alloc),
            keys: Keys::new(alloc),
        }
    }

    /// How many rows there are.
    pub fn count(&self) -> usize
        ensures { result ≡ length self.now }
    {
        self.rows.len()
    }

    /// The rows, lent.
    pub fn rows(&self) -> &[T]
        ensures { result.now ≡ self.now }
    {
        self.rows.as_slice()
    }

    /// The first row that passes.
    pub fn first<Q: Query<T>>(&self, query: &Q) -> Option<&T>
        ensures { option_copied result ≡ find (Q.passes query.now) self.now }
    {
        match first_number::<T, Vec<T>, Q>(&self.rows, &self.keys, query) {
            Some(number) => self.rows.row(number),
            None => None,
        }
    }

    /// Whether a row passes.
    pub fn any<Q: Query<T>>(&self, query: &Q) -> bool
        ensures { result ≡ list_any (Q.passes query.now) self.now }
    {
        has_any::<T, Vec<T>, Q>(&self.rows, &self.keys, query)
    }

    /// Adds a row at the end. The error is want of memory.
    pub fn push(&mut self, row: T) -> Result<(), OutOfMemory>
        ensures ok { OnOk result (self.new ≡ self.old ++ row ∷ []) }
        ensures err { OnErr result (self.new ≡ self.old) }
    {
        add_keys(&mut self.keys, self.rows.len() as u64, &row)?;
        self.rows.push(row)?;
        Ok(())
    }
}
