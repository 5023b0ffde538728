//! The publications, in the order in which they were added.
ghost use Rattle.std.specs.Prelude.{◌+◌, ◌++◌, ◌∷◌, ◌≡◌, ◌≤◌, OnErr, OnOk, [], false, length, slice_get, true, ℕ};
ghost use Rattle.std.specs.List.{list_any};
ghost use Rattle.std.specs.Option.{option_copied, option_map};
ghost use Rattle.book_rows.specs.Contents.{commit_of};
ghost use Rattle.book_rows.specs.Publications.{repeat_of};
ghost use Rattle.tab_streams.specs.Keys.{forgets_from};
ghost use Rattle.tab_streams.specs.Numbered.{AreNumbered};

use crate::OutOfMemory;
use crate::keys::Entry;
use crate::likes::may_be_forgotten;
use crate::queries::{Adding, ForgettingFrom, LikeFrom};
use book_rows::Publication;
use row_table::RowList;
use seg_names::SegId;
use std::alloc::Global;
use std::marker::Model;

/// The publications, found by their number, by an id that they add, and by what they repeat.
#[derive(Drop)]
pub struct Publications {
    entries: RowList<Entry>,
}

impl Model for Publications {
    ghost use Rattle.std.specs.Prelude.{List};
    ghost use Rattle.book_rows.specs.declared.rows.Publication.{Publication};
    ghost use Rattle.tab_streams.specs.Numbered.{AreNumbered, rows_of};

    ghost Value = { List Publication };

    ghost view = { λ a. rows_of a.entries };

    ghost invariant = { λ a. AreNumbered 0 a.entries };
}

// The number of an entry, where there is one.
fn number_of(found: Option<&Entry>) -> Option<u64>
    ensures { result ≡ option_map (λ e. e.number) (option_copied found.entry) }
{
    found.map(|entry| entry.number)
}

// Whether a publication from this number on makes earlier ones count no more.
fn is_forgotten(entries: &RowList<Entry>, like: &Publication, from: u64) -> bool
    ensures { result ≡ list_any (forgets_from from like.now) entries.now }
{
    entries.any(&ForgettingFrom { like, from })
}

// The number behind that of the last publication that makes earlier ones count no more, sought by
// halves between these two; 0 where there is none.
fn number_between(entries: &RowList<Entry>, like: &Publication, low: u64, high: u64) -> u64
    requires order { low ≤ high }
    requires none { list_any (forgets_from high like.now) entries.now ≡ false }
    requires last { (k : ℕ) → low ≡ k + 1 → list_any (forgets_from k like.now) entries.now ≡ true }
    ensures none { list_any (forgets_from result like.now) entries.now ≡ false }
    ensures last { (k : ℕ) → result ≡ k + 1 → list_any (forgets_from k like.now) entries.now ≡ true }
{
    if low == high {
        return low;
    }
    let middle = low + (high - low) / 2;
    if is_forgotten(entries, like, middle) {
        number_between(entries, like, middle + 1, high)
    } else {
        number_between(entries, like, low, middle)
    }
}

// The number from which on publications count for this one.
fn counted_from(entries: &RowList<Entry>, like: &Publication) -> u64
    requires { AreNumbered 0 entries.now }
    ensures none { list_any (forgets_from result like.now) entries.now ≡ false }
    ensures last { (k : ℕ) → result ≡ k + 1 → list_any (forgets_from k like.now) entries.now ≡ true }
{
    if may_be_forgotten(like) {
        number_between(entries, like, 0, entries.count() as u64)
    } else {
        0
    }
}

impl Publications {
    /// No publications.
    pub fn new(alloc: Global) -> Publications
        ensures { result ≡ [] }
    {
        Publications {
            entries: RowList::new(alloc),
        }
    }

    /// How many there are.
    pub fn count(&self) -> usize
        ensures { result ≡ length self.now }
    {
        self.entries.count()
    }

    /// The publication of a number.
    pub fn get(&self, number: u64) -> Option<&Publication>
        ensures { option_copied result ≡ slice_get self.now number }
    {
        match self.entries.rows().get(number as usize) {
            Some(entry) => Some(&entry.row),
            None => None,
        }
    }

    /// The number of the first that adds the id.
    pub fn first_adding(&self, id: &SegId) -> Option<u64>
        ensures { result ≡ commit_of self.now id.now }
    {
        number_of(self.entries.first(&Adding { id }))
    }

    /// The number of the first that this one would repeat.
    pub fn first_repeated(&self, like: &Publication) -> Option<u64>
        ensures { result ≡ repeat_of like.now self.now }
    {
        let from = counted_from(&self.entries, like);
        number_of(self.entries.first(&LikeFrom { like, from }))
    }

    /// Adds a publication behind the others. The error is want of memory, and leaves them as they
    /// were.
    pub fn push(&mut self, row: Publication) -> Result<(), OutOfMemory>
        ensures ok { OnOk result (self.new ≡ self.old ++ row ∷ []) }
        ensures err { OnErr result (self.new ≡ self.old) }
    {
        let number = self.entries.count() as u64;
        self.entries.push(Entry { number, row })
    }
}
