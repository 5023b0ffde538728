//! Rows of a table, lent and found by keys.
ghost use Rattle.std.specs.Prelude.{ℕ, ℤ, ◌++◌, ◌<◌, ◌∷◌, ◌≡◌, Bool, IfOk, List, OnErr, OnOk, Some, [], find, length, map, slice_get, true};
ghost use Rattle.std.specs.List.{list_any};
ghost use Rattle.std.specs.Option.{option_copied, option_map};
ghost use Rattle.row_index.specs.Index.{IsReached};

use crate::OutOfMemory;
use row_index::{Keyed, Query};
use row_table::RowList;
use std::alloc::Global;
use std::marker::Model;

/// The key under which a row stands.
pub trait Keying<T>: Drop {
    ghost key: { T → ℕ × ℤ };

    /// The key of the row.
    fn key(&self, row: &T) -> (u64, i64)
        ensures { result ≡ key row.now };
}

/// A relation of what is asked for to rows, and ranges of keys in which each related row stands.
pub trait Seeking<X, T>: Keying<T> {
    ghost holds: { Self → X → T → Bool };

    ghost ranges: { X → List ((ℕ × ℤ) × ℤ) };

    /// Whether the row is one that is asked for.
    fn holds(&self, asked: &X, row: &T) -> bool
        ensures { result ≡ holds self.now asked.now row.now };

    /// How many ranges there are.
    fn range_count(&self, asked: &X) -> usize
        ensures { result ≡ length (ranges asked.now) };

    /// The range at that place of the list of ranges.
    fn range(&self, asked: &X, at: usize) -> ((u64, i64), i64)
        requires { at < length (ranges asked.now) }
        ensures { slice_get (ranges asked.now) at ≡ Some result };

    ghost reaches: { (s : Self) (x : X) (r : T) → holds s x r ≡ true → IsReached (ranges x) (Self.key r ∷ []) };
}

/// A row that is lent, with what gives its key.
#[derive(Drop)]
pub struct Row<'a, T, K: Keying<T>> {
    pub row: &'a T,
    pub keying: &'a K,
}

impl<T, K: Keying<T>> Keyed for Row<'_, T, K> {
    ghost keys = { λ e. K.key e.row.now ∷ [] };

    fn key_count(&self) -> usize {
        1
    }

    fn key(&self, _at: usize) -> (u64, i64) {
        self.keying.key(self.row)
    }
}

/// What is asked for.
#[derive(Drop)]
pub struct Asked<'a, X, K> {
    pub asked: &'a X,
    pub seeking: &'a K,
}

impl<X, T, K: Seeking<X, T>> Query<Row<'_, T, K>> for Asked<'_, X, K> {
    ghost passes = { λ q e. K.holds q.seeking.now q.asked.now e.row.now };

    ghost ranges = { λ q. K.ranges q.asked.now };

    ghost covers = { λ q e on. K.reaches q.seeking.now q.asked.now e.row.now on };

    fn passes(&self, row: &Row<'_, T, K>) -> bool {
        self.seeking.holds(self.asked, row.row)
    }

    fn range_count(&self) -> usize {
        self.seeking.range_count(self.asked)
    }

    fn range(&self, at: usize) -> ((u64, i64), i64) {
        self.seeking.range(self.asked, at)
    }
}

/// Rows of a table, in their order.
#[derive(Drop)]
pub struct Rows<'a, T, K: Keying<T>> {
    rows: RowList<Row<'a, T, K>>,
    keying: &'a K,
}

impl<'a, T, K: Keying<T>> Model for Rows<'a, T, K> {
    ghost use Rattle.std.specs.Prelude.{List, map};

    ghost Value = { List T };

    ghost view = { λ a. map (λ e. e.row.now) a.rows };
}

impl<'a, T, K: Keying<T>> Rows<'a, T, K> {
    /// No rows.
    pub fn new(alloc: Global, keying: &'a K) -> Rows<'a, T, K>
        ensures { result ≡ [] }
    {
        Rows {
            rows: RowList::new(alloc),
            keying,
        }
    }

    /// Adds a row at the end. The error is want of memory.
    pub fn push(&mut self, row: &'a T) -> Result<(), OutOfMemory>
        ensures ok { OnOk result (self.new ≡ self.old ++ row.now ∷ []) }
        ensures err { OnErr result (self.new ≡ self.old) }
    {
        self.rows.push(Row {
            row,
            keying: self.keying,
        })
    }

    /// Whether there is a row that is asked for.
    pub fn any<X>(&self, seeking: &K, asked: &X) -> bool
    where
        K: Seeking<X, T>,
        ensures { result ≡ list_any (K.holds seeking.now asked.now) self.now }
    {
        self.rows.any(&Asked { asked, seeking })
    }

    /// The first row that is asked for.
    pub fn first<X>(&self, seeking: &K, asked: &X) -> Option<&'a T>
    where
        K: Seeking<X, T>,
        ensures { option_copied result ≡ find (K.holds seeking.now asked.now) self.now }
    {
        lent_row(self.rows.first(&Asked { asked, seeking }))
    }
}

fn lent_row<'a, T, K: Keying<T>>(found: Option<&Row<'a, T, K>>) -> Option<&'a T>
    ensures { option_copied result ≡ option_map (λ e. e.row.now) (option_copied found.entry) }
{
    match found {
        Some(found) => Some(found.row),
        None => None,
    }
}

/// The rows of a table, found by keys.
pub fn index<'a, T, K: Keying<T>>(
    alloc: Global,
    rows: &'a [T],
    keying: &'a K,
) -> Result<Rows<'a, T, K>, OutOfMemory>
    ensures { IfOk result (λ made. made ≡ rows.now) }
{
    let mut made = Rows::new(alloc, keying);
    for row in rows {
        made.push(row)?;
    }
    Ok(made)
}
