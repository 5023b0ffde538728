//! Look-ups of all used segments over a span.
ghost use Rattle.std.specs.Prelude.{◌≡◌, IfOk, filter, map, slice_get};
ghost use Rattle.std.specs.Map.{keys_of};
ghost use Rattle.book_rows.specs.Shape.{segment_ids};
ghost use Rattle.book_rows.specs.Shown.{used_rows};
ghost use Rattle.book_rows.specs.Visible.{is_used_over};
ghost use Rattle.row_index.specs.Index.{IsIndexed};
ghost use Rattle.tab_segments.specs.Keys.{entry_keys};
ghost use Rattle.tab_segments.specs.Leading.{HaveRealSpans, entries_at, rows_in};

use crate::OutOfMemory;
use crate::entries::Entry;
use crate::queries::UsedOver;
use book_rows::{SegmentRow, Twin};
use iv_span::Span;
use row_index::{Keys, Numbered, all_numbers};
use seg_names::{Name, SegId};
use std::alloc::Global;
use std::collections::BTreeMap;

// The ids of the segments at these places, in turn.
fn ids_at(
    alloc: Global,
    entries: &Vec<Entry>,
    places: &BTreeMap<u64, ()>,
) -> Result<Vec<SegId>, OutOfMemory>
    ensures { IfOk result (λ v. v.items ≡ map (λ e. e.row.id) (entries_at entries.now.items (keys_of places.now.entries))) }
{
    let mut ids = Vec::new(alloc);
    for place in places.keys() {
        if let Some(entry) = entries.row(*place) {
            ids.push(entry.row.id.twin(alloc)?)?;
        }
    }
    Ok(ids)
}

// The segments at these places, in turn.
fn rows_at(
    alloc: Global,
    entries: &Vec<Entry>,
    places: &BTreeMap<u64, ()>,
) -> Result<Vec<SegmentRow>, OutOfMemory>
    ensures { IfOk result (λ v. v.items ≡ rows_in (entries_at entries.now.items (keys_of places.now.entries))) }
{
    let mut rows = Vec::new(alloc);
    for place in places.keys() {
        if let Some(entry) = entries.row(*place) {
            rows.push(entry.row.twin(alloc)?)?;
        }
    }
    Ok(rows)
}

// The places of the used segments of the source that overlap the span.
fn places_over(
    alloc: Global,
    entries: &Vec<Entry>,
    keys: &Keys,
    source: &Name,
    span: Span,
) -> Result<BTreeMap<u64, ()>, OutOfMemory>
    requires { IsIndexed entry_keys (slice_get entries.now.items) keys.now.entries }
    ensures { IfOk result (λ places. entries_at entries.now.items (keys_of places.entries) ≡ filter (λ e. is_used_over source.now span e.row) entries.now.items) }
{
    let places = all_numbers::<Entry, Vec<Entry>, UsedOver<'_>>(
        alloc,
        entries,
        keys,
        &UsedOver { source, span },
    )?;
    let _count = places.len();
    Ok(places)
}

/// The ids of the used segments of the source that overlap the span, in their order. The error is
/// want of memory.
pub fn ids_over(
    alloc: Global,
    entries: &Vec<Entry>,
    keys: &Keys,
    source: &Name,
    span: Span,
) -> Result<Vec<SegId>, OutOfMemory>
    requires { IsIndexed entry_keys (slice_get entries.now.items) keys.now.entries }
    ensures { IfOk result (λ v. v.items ≡ segment_ids (filter (is_used_over source.now span) (rows_in entries.now.items))) }
{
    let places = places_over(alloc, entries, keys, source, span)?;
    ids_at(alloc, entries, &places)
}

/// The used segments of the source that overlap the span, in their order. The error is want of
/// memory.
pub fn rows_over(
    alloc: Global,
    entries: &Vec<Entry>,
    keys: &Keys,
    source: &Name,
    span: Span,
) -> Result<Vec<SegmentRow>, OutOfMemory>
    requires { IsIndexed entry_keys (slice_get entries.now.items) keys.now.entries }
    ensures { IfOk result (λ v. v.items ≡ filter (is_used_over source.now span) (rows_in entries.now.items)) }
{
    let places = places_over(alloc, entries, keys, source, span)?;
    rows_at(alloc, entries, &places)
}

/// The used segments of the source, in their order. The error is want of memory.
pub fn rows_of(
    alloc: Global,
    entries: &Vec<Entry>,
    keys: &Keys,
    source: &Name,
) -> Result<Vec<SegmentRow>, OutOfMemory>
    requires indexed { IsIndexed entry_keys (slice_get entries.now.items) keys.now.entries }
    requires real { HaveRealSpans entries.now.items }
    ensures { IfOk result (λ v. v.items ≡ used_rows (rows_in entries.now.items) source.now) }
{
    // Each span overlaps this one.
    match Span::new(i64::MIN, i64::MAX) {
        Ok(all) => rows_over(alloc, entries, keys, source, all),
        Err(_) => unreachable!(),
    }
}
