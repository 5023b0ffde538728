//! The first row that passes.
//!
//! Under one key numbers ascend. So once a row passes that has a key at a place, no other one at
//! that place is asked for, and the look-up goes on behind it: rows of one span cost one step.
ghost use Rattle.std.specs.Prelude.{◌≡◌, ℕ, ℤ, ◌≤◌, ◌⊎◌, ◌<ℤ◌, IfSome, Some, true};
ghost use Rattle.row_index.specs.Index.{ComeFrom, HasAll, IsIndexed, IsPassing, IsUpTo, Lies};

use crate::{Keyed, Keys, Numbered, Query, Tree};

// The first key of the range, in the order of keys, whose row passes, with the row's number.
fn first_key<T: Keyed, R: Numbered<T>, Q: Query<T>>(
    rows: &R,
    keys: &Tree,
    query: &Q,
    range: ((u64, i64), i64),
) -> Option<((u64, i64), u64)>
    requires { range.0.1 <ℤ range.1 }
    ensures within { IfSome result (λ h. Lies range h.0) }
    ensures sound { IfSome result (λ h. IsPassing (R.row_of rows.now) (Q.passes query.now) h.1) }
    ensures first { ComeFrom (R.row_of rows.now) (Q.passes query.now) range keys.now.entries result }
{
    let (first, end) = range;
    for (key, _) in keys.range((first, 0)..((first.0, end), 0)) {
        if let Some(row) = rows.row(key.1) {
            if query.passes(row) {
                return Some(*key);
            }
        }
    }
    None
}

// The lesser one, where there are two.
fn lesser(best: Option<u64>, number: u64) -> u64
    ensures low { result ≤ number }
    ensures kept { (b : ℕ) → best ≡ Some b → result ≤ b }
    ensures one { (best ≡ Some result) ⊎ (result ≡ number) }
{
    match best {
        Some(found) => found.min(number),
        None => number,
    }
}

// The least number of a row that passes and has a key in the range, or the best one before where
// that is less.
fn first_in_range<T: Keyed, R: Numbered<T>, Q: Query<T>>(
    rows: &R,
    keys: &Tree,
    query: &Q,
    range: ((u64, i64), i64),
    best: Option<u64>,
) -> Option<u64>
    ensures kept { (b : ℕ) → best ≡ Some b → IsUpTo result b }
    ensures sound { ((b : ℕ) → best ≡ Some b → IsPassing (R.row_of rows.now) (Q.passes query.now) b) → (b : ℕ) → result ≡ Some b → IsPassing (R.row_of rows.now) (Q.passes query.now) b }
    ensures all { HasAll (λ s r. IsUpTo result s) (R.row_of rows.now) (Q.passes query.now) range keys.now.entries }
{
    let (first, end) = range;
    let mut least = best;
    let mut place = first.1;
    while place < end {
        match first_key(rows, keys, query, ((first.0, place), end)) {
            Some((key, number)) => {
                least = Some(lesser(least, number));
                place = key.1 + 1;
            }
            None => return least,
        }
    }
    least
}

// The same, by the tree only where the range may have keys.
fn least_in_range<T: Keyed, R: Numbered<T>, Q: Query<T>>(
    rows: &R,
    keys: &Keys,
    query: &Q,
    range: ((u64, i64), i64),
    best: Option<u64>,
) -> Option<u64>
    ensures kept { (b : ℕ) → best ≡ Some b → IsUpTo result b }
    ensures sound { ((b : ℕ) → best ≡ Some b → IsPassing (R.row_of rows.now) (Q.passes query.now) b) → (b : ℕ) → result ≡ Some b → IsPassing (R.row_of rows.now) (Q.passes query.now) b }
    ensures all { HasAll (λ s r. IsUpTo result s) (R.row_of rows.now) (Q.passes query.now) range keys.now.entries }
{
    if keys.may_have(range) {
        first_in_range(rows, keys.tree(), query, range, best)
    } else {
        best
    }
}

/// The least number of a row that passes.
pub fn first_number<T: Keyed, R: Numbered<T>, Q: Query<T>>(
    rows: &R,
    keys: &Keys,
    query: &Q,
) -> Option<u64>
    requires { IsIndexed T.keys (R.row_of rows.now) keys.now.entries }
    ensures sound { (b : ℕ) → result ≡ Some b → IsPassing (R.row_of rows.now) (Q.passes query.now) b }
    ensures least { (s : ℕ) (r : T) → R.row_of rows.now s ≡ Some r → Q.passes query.now r ≡ true → (b : ℕ) × (result ≡ Some b) × (b ≤ s) }
{
    let mut best = None;
    for at in 0..query.range_count() {
        best = least_in_range(rows, keys, query, query.range(at), best);
    }
    best
}
