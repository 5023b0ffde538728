//! The segments, in the order in which they were added.
ghost use Rattle.std.specs.Prelude.{◌++◌, ◌∷◌, ◌≡◌, IfOk, OnErr, OnOk, [], filter, length, map, slice_get, true};
ghost use Rattle.std.specs.List.{list_any};
ghost use Rattle.std.specs.Option.{option_copied};
ghost use Rattle.book_rows.specs.Rewrite.{unused};
ghost use Rattle.book_rows.specs.Shape.{segment_ids};
ghost use Rattle.book_rows.specs.Shown.{used_rows};
ghost use Rattle.book_rows.specs.Visible.{is_used_over};
ghost use Rattle.row_index.specs.Index.{IsIndexed};
ghost use Rattle.tab_segments.specs.Keys.{entry_keys};
ghost use Rattle.tab_segments.specs.Leading.{IsReal};
ghost use Rattle.tab_segments.specs.SegmentRows.{chunk_id, first_across, first_cut, visible_chunk};

use crate::OutOfMemory;
use crate::clearing::clear_keys;
use crate::entries::Entry;
use crate::leading::{any_over, first_over, leads_chunk};
use crate::searches::{Across, Every, Newer};
use crate::unusing::unuse_in;
use crate::used::{ids_over, rows_of, rows_over};
use crate::visible::visible_in;
use book_rows::SegmentRow;
use iv_span::Span;
use row_index::{Keys, Numbered, add_keys};
use seg_names::{Name, SegId};
use std::alloc::Global;
use std::marker::Model;

/// The segments in a vector, each under its place, and their keys.
#[derive(Drop)]
pub struct SegmentList {
    entries: Vec<Entry>,
    keys: Keys,
}

impl Model for SegmentList {
    ghost use Rattle.std.specs.Prelude.{List, slice_get};
    ghost use Rattle.book_rows.specs.declared.rows.SegmentRow.{SegmentRow};
    ghost use Rattle.row_index.specs.Index.{IsIndexed};
    ghost use Rattle.tab_segments.specs.Keys.{entry_keys};
    ghost use Rattle.tab_segments.specs.Leading.{AreLed, HaveRealSpans, rows_in};

    ghost Value = { List SegmentRow };

    ghost view = { λ a. rows_in a.entries.items };

    ghost invariant = { λ a. IsIndexed entry_keys (slice_get a.entries.items) a.keys.entries × AreLed a.entries.items × HaveRealSpans a.entries.items };
}

// What every span is. Only a proof asks for it.
fn look_real(row: &SegmentRow)
    ensures { IsReal row.now.id.span }
{
    let _start = row.id.span.start();
    let _end = row.id.span.end();
}

// Adds an entry under its place, and its keys.
fn push_entry(entries: &mut Vec<Entry>, keys: &mut Keys, entry: Entry) -> Result<(), OutOfMemory>
    requires { IsIndexed entry_keys (slice_get entries.old.items) keys.old.entries }
    ensures ok { OnOk result (entries.new.items ≡ entries.old.items ++ entry ∷ []) }
    ensures err { OnErr result (entries.new.items ≡ entries.old.items) }
    ensures indexed { IsIndexed entry_keys (slice_get entries.new.items) keys.new.entries }
{
    add_keys(keys, entries.len() as u64, &entry)?;
    entries.push(entry)?;
    Ok(())
}

impl SegmentList {
    /// No segments.
    pub fn new(alloc: Global) -> SegmentList
        ensures { result ≡ [] }
    {
        SegmentList {
            entries: Vec::new(alloc),
            keys: Keys::new(alloc),
        }
    }

    /// How many segments there are.
    pub fn count(&self) -> usize
        ensures { result ≡ length self.now }
    {
        self.entries.len()
    }

    /// The segment at a place.
    pub fn get(&self, place: usize) -> Option<&SegmentRow>
        ensures { option_copied result ≡ slice_get self.now place }
    {
        match self.entries.row(place as u64) {
            Some(entry) => Some(&entry.row),
            None => None,
        }
    }

    /// Span and version of the chunk that is visible at the instant.
    pub fn visible_at(&self, source: &Name, at: i64) -> Option<(Span, i64)>
        ensures { result ≡ visible_chunk self.now source.now at }
    {
        visible_in(&self.entries, &self.keys, source, at)
    }

    /// The first used segment of a greater version that overlaps the span.
    pub fn cut_by(&self, source: &Name, span: Span, version: i64) -> Option<&SegId>
        ensures { option_copied result ≡ first_cut self.now (chunk_id source.now span version) }
    {
        first_over(&self.entries, &self.keys, source, span, &Newer { version })
    }

    /// Whether a used segment of the source overlaps the span.
    pub fn is_used_over(&self, source: &Name, span: Span) -> bool
        ensures { result ≡ list_any (is_used_over source.now span) self.now }
    {
        any_over(&self.entries, &self.keys, source, span)
    }

    /// The first used segment of the source that overlaps the span and doesn't lie within it.
    pub fn across(&self, source: &Name, span: Span) -> Option<&SegId>
        ensures { option_copied result ≡ first_across self.now source.now span }
    {
        first_over(&self.entries, &self.keys, source, span, &Across { span })
    }

    /// The ids of the used segments of the source that overlap the span, in their order. The error
    /// is want of memory.
    pub fn overlapping(
        &self,
        alloc: Global,
        source: &Name,
        span: Span,
    ) -> Result<Vec<SegId>, OutOfMemory>
        ensures { IfOk result (λ v. v.items ≡ segment_ids (filter (is_used_over source.now span) self.now)) }
    {
        ids_over(alloc, &self.entries, &self.keys, source, span)
    }

    /// The used segments of the source that overlap the span, in their order. The error is want of
    /// memory.
    pub fn rows_over(
        &self,
        alloc: Global,
        source: &Name,
        span: Span,
    ) -> Result<Vec<SegmentRow>, OutOfMemory>
        ensures { IfOk result (λ v. v.items ≡ filter (is_used_over source.now span) self.now) }
    {
        rows_over(alloc, &self.entries, &self.keys, source, span)
    }

    /// The used segments of the source, in their order. The error is want of memory.
    pub fn rows_of(&self, alloc: Global, source: &Name) -> Result<Vec<SegmentRow>, OutOfMemory>
        ensures { IfOk result (λ v. v.items ≡ used_rows self.now source.now) }
    {
        rows_of(alloc, &self.entries, &self.keys, source)
    }

    /// Adds a segment behind the others. The error is want of memory, and leaves them as they were.
    pub fn push(&mut self, row: SegmentRow) -> Result<(), OutOfMemory>
        ensures ok { OnOk result (self.new ≡ self.old ++ row ∷ []) }
        ensures err { OnErr result (self.new ≡ self.old) }
    {
        look_real(&row);
        let leads = leads_chunk(&self.entries, &self.keys, &row);
        let entry = Entry { row, leads };
        push_entry(&mut self.entries, &mut self.keys, entry)
    }

    /// Each segment of the source that lies within the span becomes unused. It takes no memory.
    pub fn unuse(&mut self, source: &Name, span: Span)
        ensures { self.new ≡ map (unused source.now span) self.old }
    {
        unuse_in(&mut self.entries, &self.keys, source, span);
        clear_keys(&self.entries, &mut self.keys, source, span);
    }
}
