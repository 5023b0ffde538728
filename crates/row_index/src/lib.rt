//! An index of rows that have several keys each.
//!
//! A look-up visits the ranges of keys in which a row that it seeks must have one, and tests each
//! row that it meets there. So an index may hold keys that no row has, and rows of equal digests
//! cost time and never truth. What must hold is one-sided: each row stands in the index by each of
//! its keys.
#![tactic(auto)]

ghost use Rattle.std.specs.Prelude.{◌≡◌, ℕ, ℤ, ◌<◌, ◌≤◌, [], ◌∷◌, Bool, List, Option, Some, None, IsSome, IsTrue, OnOk, true, false, length, slice_get, ⊤};
ghost use Rattle.std.specs.Option.{option_copied};
ghost use Rattle.std.specs.BTreeMap.{is_at};
ghost use Rattle.std.specs.Map.{lookup};
ghost use Rattle.row_index.specs.Index.{In, IsKey, IsIndexed, IsMore, IsLess, IsReached, HasAll, Hides, Shows, row_at};

mod digests;
mod firsts;
mod keepers;
mod keys;

pub use digests::{digest_key, digest_range, mix, mix_bytes};
pub use firsts::first_number;
pub use keepers::{all_numbers, any_number, has_any, least_number};
pub use keys::{Keys, Tree};
use std::alloc::AllocError;
use std::collections::BTreeMap;

/// Want of memory.
pub type OutOfMemory = AllocError;

/// A row, or what one may become, with the keys by which it is found.
pub trait Keyed: Drop {
    ghost keys: { Self → List (ℕ × ℤ) };

    /// How many keys there are.
    fn key_count(&self) -> usize
        ensures { result ≡ length (keys self.now) };

    /// The key at that place of the list of keys: its digest, and its place among the keys of that
    /// digest.
    fn key(&self, at: usize) -> (u64, i64)
        requires { at < length (keys self.now) }
        ensures { slice_get (keys self.now) at ≡ Some result };
}

/// A row with a rank, by which the least of several is asked for.
pub trait Ranked: Keyed {
    ghost rank: { Self → ℕ };

    /// The rank.
    fn rank(&self) -> u64
        ensures { result ≡ rank self.now };
}

/// Rows under numbers. Row order is the order of the numbers.
pub trait Numbered<T>: Drop {
    ghost row_of: { Self → ℕ → Option T };

    /// The row of that number.
    fn row(&self, number: u64) -> Option<&T>
        ensures { option_copied result ≡ row_of self.now number };
}

impl<T: Drop> Numbered<T> for BTreeMap<u64, T> {
    ghost row_of = { λ m s. row_at m.entries s };

    fn row(&self, number: u64) -> Option<&T> {
        self.get(&number)
    }
}

// The number of a row is its place.
impl<T: Drop> Numbered<T> for Vec<T> {
    ghost row_of = { λ v s. slice_get v.items s };

    fn row(&self, number: u64) -> Option<&T> {
        self.get(number as usize)
    }
}

/// What rows are looked for by: a test, and ranges of keys. Each row that passes has a key in one
/// of them.
pub trait Query<T: Keyed>: Drop {
    ghost passes: { Self → T → Bool };

    ghost ranges: { Self → List ((ℕ × ℤ) × ℤ) };

    /// Whether the row is one that is looked for.
    fn passes(&self, row: &T) -> bool
        ensures { result ≡ passes self.now row.now };

    /// How many ranges there are.
    fn range_count(&self) -> usize
        ensures { result ≡ length (ranges self.now) };

    /// The range at that place of the list of ranges: its digest and first place, and the place
    /// after its last.
    fn range(&self, at: usize) -> ((u64, i64), i64)
        requires { at < length (ranges self.now) }
        ensures { slice_get (ranges self.now) at ≡ Some result };

    ghost covers: { (q : Self) (r : T) → passes q r ≡ true → IsReached (ranges q) (T.keys r) };
}

/// What a walk keeps of the rows that pass. It must not matter in which order they come, nor that
/// one comes twice.
pub trait Keeper<T>: Drop {
    // The row of that number counts.
    ghost counts: { Self → ℕ → T → Type 0 };

    // All that is kept is of rows that pass.
    ghost is_sound: { Self → (ℕ → Option T) → (T → Bool) → Type 0 };

    /// Takes a row that passes, with its number.
    fn take(&mut self, number: u64, row: &T)
        ensures taken { counts self.new number row.now }
        ensures kept { (s : ℕ) (r : T) → counts self.old s r → counts self.new s r }
        ensures sound { (rows : ℕ → Option T) (test : T → Bool) → is_sound self.old rows test → rows number ≡ Some row.now → test row.now ≡ true → is_sound self.new rows test };

    /// Whether no further row can change the answer, so that the walk may stop.
    fn is_done(&self) -> bool
        ensures { IsTrue result → (s : ℕ) (r : T) → counts self.now s r };
}

// Shows the keeper each row that passes and has a key in the range.
fn walk_range<T: Keyed, R: Numbered<T>, Q: Query<T>, K: Keeper<T>>(
    rows: &R,
    keys: &Tree,
    query: &Q,
    range: ((u64, i64), i64),
    keeper: &mut K,
)
    ensures kept { (s : ℕ) (r : T) → K.counts keeper.old s r → K.counts keeper.new s r }
    ensures sound { K.is_sound keeper.old (R.row_of rows.now) (Q.passes query.now) → K.is_sound keeper.new (R.row_of rows.now) (Q.passes query.now) }
    ensures all { HasAll (K.counts keeper.new) (R.row_of rows.now) (Q.passes query.now) range keys.now.entries }
{
    let (first, end) = range;
    if first.1 >= end {
        return;
    }
    for (key, _) in keys.range((first, 0)..((first.0, end), 0)) {
        if keeper.is_done() {
            return;
        }
        if let Some(row) = rows.row(key.1) {
            if query.passes(row) {
                keeper.take(key.1, row);
            }
        }
    }
}

// The same, where the range may have keys.
fn visit_range<T: Keyed, R: Numbered<T>, Q: Query<T>, K: Keeper<T>>(
    rows: &R,
    keys: &Keys,
    query: &Q,
    range: ((u64, i64), i64),
    keeper: &mut K,
)
    ensures kept { (s : ℕ) (r : T) → K.counts keeper.old s r → K.counts keeper.new s r }
    ensures sound { K.is_sound keeper.old (R.row_of rows.now) (Q.passes query.now) → K.is_sound keeper.new (R.row_of rows.now) (Q.passes query.now) }
    ensures all { HasAll (K.counts keeper.new) (R.row_of rows.now) (Q.passes query.now) range keys.now.entries }
{
    if keys.may_have(range) {
        walk_range(rows, keys.tree(), query, range, keeper);
    }
}

/// Shows the keeper each row that passes, in no order that a caller may rely on, and once for each
/// key that lies in a range.
pub fn walk<T: Keyed, R: Numbered<T>, Q: Query<T>, K: Keeper<T>>(
    rows: &R,
    keys: &Keys,
    query: &Q,
    keeper: &mut K,
)
    requires { IsIndexed T.keys (R.row_of rows.now) keys.now.entries }
    ensures sound { K.is_sound keeper.old (R.row_of rows.now) (Q.passes query.now) → K.is_sound keeper.new (R.row_of rows.now) (Q.passes query.now) }
    ensures all { (s : ℕ) (r : T) → R.row_of rows.now s ≡ Some r → Q.passes query.now r ≡ true → K.counts keeper.new s r }
{
    for at in 0..query.range_count() {
        visit_range(rows, keys, query, query.range(at), keeper);
    }
}

/// Adds the row's keys. The error is want of memory; keys that were added before it stay, which
/// does no harm.
pub fn add_keys<T: Keyed>(keys: &mut Keys, number: u64, row: &T) -> Result<(), OutOfMemory>
    ensures more { IsMore keys.old.entries keys.new.entries }
    ensures own { OnOk result (Shows (T.keys row.now) number keys.new.entries) }
{
    for at in 0..row.key_count() {
        keys.add((row.key(at), number))?;
    }
    Ok(())
}

/// Takes all keys of the row out. It takes no memory.
pub fn remove_keys<T: Keyed>(keys: &mut Keys, number: u64, row: &T)
    ensures others { IsLess number keys.old.entries keys.new.entries }
    ensures gone { Hides (T.keys row.now) number keys.new.entries }
{
    for at in 0..row.key_count() {
        keys.remove((row.key(at), number));
    }
}

fn has_key<T: Keyed>(row: &T, key: (u64, i64)) -> bool
    ensures found { result ≡ true → In key (T.keys row.now) }
    ensures missing { result ≡ false → In key (T.keys row.now) → ⊥ }
{
    for at in 0..row.key_count() {
        if row.key(at) == key {
            return true;
        }
    }
    false
}

/// Takes the key out where the row, which was changed, hasn't it any more. It takes no memory.
pub fn drop_lost_key<T: Keyed>(keys: &mut Keys, number: u64, row: &T, key: (u64, i64))
    ensures others { IsLess number keys.old.entries keys.new.entries }
    ensures own { Shows (T.keys row.now) number keys.old.entries → Shows (T.keys row.now) number keys.new.entries }
    ensures gone { (In key (T.keys row.now) → ⊥) → Hides (key ∷ []) number keys.new.entries }
{
    if !has_key(row, key) {
        keys.remove((key, number));
    }
}
