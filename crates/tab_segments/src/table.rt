//! The table.
ghost use Rattle.std.specs.Prelude.{◌++◌, ◌∷◌, ◌≡◌, IfOk, IsNone, IsSome, OnErr, OnOk, [], filter, length, map, not, slice_get, true};
ghost use Rattle.std.specs.List.{list_any};
ghost use Rattle.std.specs.Option.{option_copied};
ghost use Rattle.seg_names.specs.Ids.{same_id};
ghost use Rattle.book_rows.specs.Allocation.{chunk_of, is_of_chunk};
ghost use Rattle.book_rows.specs.Append.{version_overlaps};
ghost use Rattle.book_rows.specs.Rewrite.{unused};
ghost use Rattle.book_rows.specs.Shape.{AreDistinct, same_chunk_row, segment_ids};
ghost use Rattle.book_rows.specs.Shown.{used_rows};
ghost use Rattle.book_rows.specs.Visible.{is_used_over};
ghost use Rattle.tab_segments.specs.SegmentRows.{chunk_id, first_across, first_cut, segment_of, visible_chunk, with_next};

use crate::OutOfMemory;
use crate::chunks::{Chunk, NextSet, OfChunk, OfVersion};
use crate::list::SegmentList;
use book_rows::{ChunkRow, SegmentRow};
use iv_span::Span;
use row_table::RowTable;
use seg_names::{Name, SegId};
use std::alloc::Global;
use std::collections::btree_map::Values;
use std::marker::Model;

/// The chunks, each of its own source, span and version, and the segments, each of its own id.
///
/// A contract sees both lists in the order in which rows were added. In a clause a chunk is named by
/// the id of its part 0.
#[derive(Drop)]
pub struct Segments {
    chunks: RowTable<Chunk>,
    segments: SegmentList,
}

impl Model for Segments {
    ghost use Rattle.seg_names.specs.Ids.{same_id};
    ghost use Rattle.book_rows.specs.Shape.{AreDistinct, same_chunk_row, segment_ids};
    ghost use Rattle.tab_segments.specs.SegmentRows.{SegmentRows};

    ghost Value = { SegmentRows };

    ghost view = { λ a. record { chunks = a.chunks; segments = a.segments } };

    ghost invariant = { λ a. AreDistinct same_chunk_row a.chunks × AreDistinct same_id (segment_ids a.segments) };
}

impl Segments {
    /// No chunks and no segments.
    pub fn new(alloc: Global) -> Segments
        ensures { result ≡ record { chunks = []; segments = [] } }
    {
        Segments {
            chunks: RowTable::new(alloc),
            segments: SegmentList::new(alloc),
        }
    }

    /// How many chunks there are.
    pub fn chunk_count(&self) -> usize
        ensures value { result ≡ length self.now.chunks }
        ensures distinct { AreDistinct same_chunk_row self.now.chunks }
    {
        self.chunks.count()
    }

    /// The chunks in row order, lent one by one.
    pub fn chunks(&self) -> Values<'_, u64, Chunk>
        ensures { result ≡ self.now.chunks }
    {
        self.chunks.iter()
    }

    /// The chunk of this source, span and version.
    pub fn chunk(&self, source: &Name, span: Span, version: i64) -> Option<&ChunkRow>
        ensures { option_copied result ≡ chunk_of (chunk_id source.now span version) self.now.chunks }
    {
        let asked = OfChunk {
            source,
            span,
            version,
        };
        match self.chunks.first(&asked) {
            Some(chunk) => Some(&chunk.row),
            None => None,
        }
    }

    /// Whether a chunk of this source and version overlaps the span.
    pub fn version_overlaps(&self, source: &Name, span: Span, version: i64) -> bool
        ensures { result ≡ version_overlaps self.now.chunks source.now span version }
    {
        self.chunks.any(&OfVersion {
            source,
            span,
            version,
        })
    }

    /// Adds a chunk where there is none of its source, span and version. The error is want of
    /// memory, and leaves the table as it was.
    pub fn add_chunk(&mut self, row: ChunkRow) -> Result<(), OutOfMemory>
        requires { IsNone (chunk_of (chunk_id row.source row.span row.version) self.old.chunks) }
        ensures ok { OnOk result (self.new ≡ record self.old { chunks = self.old.chunks ++ row ∷ [] }) }
        ensures err { OnErr result (self.new ≡ self.old) }
    {
        self.chunks.push(Chunk { row })
    }

    /// Sets the part that the chunk of this source, span and version gives next. It takes no memory.
    pub fn set_next(&mut self, source: &Name, span: Span, version: i64, next: u32)
        requires { IsSome (chunk_of (chunk_id source.now span version) self.old.chunks) }
        ensures { self.new ≡ record self.old { chunks = map (with_next (chunk_id source.now span version) next) self.old.chunks } }
    {
        self.chunks.change_all(&NextSet {
            source,
            span,
            version,
            next,
        });
    }

    /// Takes the chunk of this source, span and version out, where there is one. It takes no memory.
    pub fn take_chunk(&mut self, source: &Name, span: Span, version: i64)
        ensures { self.new ≡ record self.old { chunks = filter (λ c. not (is_of_chunk c (chunk_id source.now span version))) self.old.chunks } }
    {
        self.chunks.remove_all(&OfChunk {
            source,
            span,
            version,
        });
    }

    /// How many segments there are.
    pub fn segment_count(&self) -> usize
        ensures value { result ≡ length self.now.segments }
        ensures distinct { AreDistinct same_id (segment_ids self.now.segments) }
    {
        self.segments.count()
    }

    /// The segment at a place of the row order.
    pub fn segment(&self, place: usize) -> Option<&SegmentRow>
        ensures { option_copied result ≡ slice_get self.now.segments place }
    {
        self.segments.get(place)
    }

    /// Span and version of the chunk that is visible at the instant.
    pub fn visible_at(&self, source: &Name, at: i64) -> Option<(Span, i64)>
        ensures { result ≡ visible_chunk self.now.segments source.now at }
    {
        self.segments.visible_at(source, at)
    }

    /// The first used segment of a greater version that overlaps a chunk of this source, span and
    /// version.
    pub fn cut_by(&self, source: &Name, span: Span, version: i64) -> Option<&SegId>
        ensures { option_copied result ≡ first_cut self.now.segments (chunk_id source.now span version) }
    {
        self.segments.cut_by(source, span, version)
    }

    /// Whether a used segment of the source overlaps the span.
    pub fn is_used_over(&self, source: &Name, span: Span) -> bool
        ensures { result ≡ list_any (is_used_over source.now span) self.now.segments }
    {
        self.segments.is_used_over(source, span)
    }

    /// The first used segment of the source that overlaps the span and doesn't lie within it.
    pub fn across(&self, source: &Name, span: Span) -> Option<&SegId>
        ensures { option_copied result ≡ first_across self.now.segments source.now span }
    {
        self.segments.across(source, span)
    }

    /// The ids of the used segments of the source that overlap the span, in row order. The error is
    /// want of memory.
    pub fn overlapping(
        &self,
        alloc: Global,
        source: &Name,
        span: Span,
    ) -> Result<Vec<SegId>, OutOfMemory>
        ensures { IfOk result (λ v. v.items ≡ segment_ids (filter (is_used_over source.now span) self.now.segments)) }
    {
        self.segments.overlapping(alloc, source, span)
    }

    /// The used segments of the source that overlap the span, in row order. The error is want of
    /// memory.
    pub fn rows_over(
        &self,
        alloc: Global,
        source: &Name,
        span: Span,
    ) -> Result<Vec<SegmentRow>, OutOfMemory>
        ensures { IfOk result (λ v. v.items ≡ filter (is_used_over source.now span) self.now.segments) }
    {
        self.segments.rows_over(alloc, source, span)
    }

    /// The used segments of the source, in row order. The error is want of memory.
    pub fn rows_of(&self, alloc: Global, source: &Name) -> Result<Vec<SegmentRow>, OutOfMemory>
        ensures { IfOk result (λ v. v.items ≡ used_rows self.now.segments source.now) }
    {
        self.segments.rows_of(alloc, source)
    }

    /// Adds a segment of a new id. The error is want of memory, and leaves the table as it was.
    pub fn add(&mut self, row: SegmentRow) -> Result<(), OutOfMemory>
        requires { IsNone (segment_of row.id self.old.segments) }
        ensures ok { OnOk result (self.new ≡ record self.old { segments = self.old.segments ++ row ∷ [] }) }
        ensures err { OnErr result (self.new ≡ self.old) }
    {
        self.segments.push(row)
    }

    /// Each segment of the source that lies within the span becomes unused. It takes no memory.
    pub fn unuse(&mut self, source: &Name, span: Span)
        ensures { self.new ≡ record self.old { segments = map (unused source.now span) self.old.segments } }
    {
        self.segments.unuse(source, span);
    }
}
