//! The segment of the greatest version at an instant.
ghost use Rattle.std.specs.Prelude.{◌≡◌, ◌<ℤ◌, ◌↔◌, IsTrue, Some, find, slice_get, true, ℕ, ℤ};
ghost use Rattle.std.specs.Option.{option_copied};
ghost use Rattle.book_rows.specs.Visible.{is_visible};
ghost use Rattle.row_index.specs.Index.{IsIndexed, IsPassing};
ghost use Rattle.tab_segments.specs.Keys.{entry_keys};
ghost use Rattle.tab_segments.specs.Leading.{AreLed, HaveRealSpans, IsAbove, leads_and, leads_at, rows_in};
ghost use Rattle.tab_segments.specs.SegmentRows.{visible_chunk};

use crate::entries::Entry;
use crate::queries::LeadingAt;
use iv_span::Span;
use row_index::{Keeper, Keys, Numbered, Query, walk};
use seg_names::Name;

/// The greatest version, and of those the first place.
#[derive(Drop)]
struct Newest {
    best: Option<(i64, u64)>,
}

fn is_above(left: (i64, u64), right: (i64, u64)) -> bool
    ensures { IsTrue result ↔ IsAbove left right }
{
    left.0 > right.0 || (left.0 == right.0 && left.1 <= right.1)
}

impl Keeper<Entry> for Newest {
    ghost use Rattle.tab_segments.specs.declared.entries.Entry.{Entry};

    ghost counts = { λ k s e. (b : ℤ × ℕ) × (k.best ≡ Some b) × IsAbove b (e.row.id.version, s) };

    ghost is_sound = { λ k rows test. (b : ℤ × ℕ) → k.best ≡ Some b → (e : Entry) × (rows b.1 ≡ Some e) × (test e ≡ true) × (e.row.id.version ≡ b.0) };

    fn take(&mut self, number: u64, entry: &Entry) {
        let own = (entry.row.id.version, number);
        match self.best {
            Some(found) if is_above(found, own) => {}
            _ => self.best = Some(own),
        }
    }

    fn is_done(&self) -> bool {
        false
    }
}

// The first place of an entry that passes and whose version none that passes is above.
fn newest_place<Q: Query<Entry>>(entries: &Vec<Entry>, keys: &Keys, query: &Q) -> Option<u64>
    requires { IsIndexed entry_keys (slice_get entries.now.items) keys.now.entries }
    ensures sound { (b : ℕ) → result ≡ Some b → IsPassing (slice_get entries.now.items) (Q.passes query.now) b }
    ensures newest { (s : ℕ) (e : Entry) → slice_get entries.now.items s ≡ Some e → Q.passes query.now e ≡ true → (b : ℕ) × (q : Entry) × (result ≡ Some b) × (slice_get entries.now.items b ≡ Some q) × IsAbove (q.row.id.version, b) (e.row.id.version, s) }
{
    let mut newest = Newest { best: None };
    walk::<Entry, Vec<Entry>, Q, Newest>(entries, keys, query, &mut newest);
    match newest.best {
        Some((_, place)) => Some(place),
        None => None,
    }
}

// The first leading segment that is visible at the start of a span.
fn visible_start<'a>(
    entries: &'a Vec<Entry>,
    keys: &Keys,
    source: &Name,
    around: Span,
) -> Option<&'a Entry>
    requires indexed { IsIndexed entry_keys (slice_get entries.now.items) keys.now.entries }
    requires led { AreLed entries.now.items }
    ensures { option_copied result ≡ find (leads_and (is_visible (rows_in entries.now.items) source.now around.start)) entries.now.items }
{
    // The span has its start.
    let _start = around.start();
    match newest_place(entries, keys, &LeadingAt { source, around }) {
        Some(place) => entries.row(place),
        None => None,
    }
}

// The first leading segment that is visible at the instant.
fn visible_entry<'a>(
    entries: &'a Vec<Entry>,
    keys: &Keys,
    source: &Name,
    at: i64,
) -> Option<&'a Entry>
    requires indexed { IsIndexed entry_keys (slice_get entries.now.items) keys.now.entries }
    requires led { AreLed entries.now.items }
    requires real { HaveRealSpans entries.now.items }
    ensures { option_copied result ≡ find (leads_and (is_visible (rows_in entries.now.items) source.now at)) entries.now.items }
{
    // No span has the greatest number.
    match Span::new(at, at.saturating_add(1)) {
        Ok(around) => visible_start(entries, keys, source, around),
        Err(_) => None,
    }
}

/// Span and version of the chunk that is visible at the instant.
pub fn visible_in(entries: &Vec<Entry>, keys: &Keys, source: &Name, at: i64) -> Option<(Span, i64)>
    requires indexed { IsIndexed entry_keys (slice_get entries.now.items) keys.now.entries }
    requires led { AreLed entries.now.items }
    requires real { HaveRealSpans entries.now.items }
    ensures { result ≡ visible_chunk (rows_in entries.now.items) source.now at }
{
    match visible_entry(entries, keys, source, at) {
        Some(entry) => Some((entry.row.id.span, entry.row.id.version)),
        None => None,
    }
}
