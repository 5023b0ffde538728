//! The timeline of a source.

ghost use Rattle.std.specs.Prelude.{◌≡◌, ◌<ℤ◌, IfOk, false, not, true};
ghost use Rattle.std.specs.List.Sorted.{IsPartitionPoint, IsPermutation, IsSorted};
ghost use Rattle.seg_names.specs.Ids.{id_cmp};
ghost use Rattle.book_rows.specs.Shown.{timeline_of};
ghost use Rattle.laws_parts.specs.OneSpan.{ShareOneSpan};
ghost use Rattle.timeline_view.specs.Sweep.{stretch_span};
ghost use Rattle.timeline_view.specs.Chunks.{AreIdsIn, HaveOneSource, covers_of, is_before, is_in, named_ids};

use crate::ids::{id_at, last_is};
use crate::sweep::{Cover, Stretch, stretches};
use book_rows::{Items, SegmentRow, TimelinePart};
use iv_span::{OutOfMemory, Span};
use seg_names::{Name, SegId};
use std::alloc::Global;
use tab_segments::Segments;

/// The chunks of the rows, once for each row.
pub fn covers_of(alloc: Global, rows: &[SegmentRow]) -> Result<Vec<Cover>, OutOfMemory>
    ensures { IfOk result (λ v. v.items ≡ covers_of rows.now) }
{
    let mut covers = Vec::new(alloc);
    for row in rows {
        covers.push(Cover {
            version: row.id.version,
            span: row.id.span,
        })?;
    }
    Ok(covers)
}

/// The ids of the rows that aren't tombstones, in id order.
pub fn ids_named(alloc: Global, rows: &[SegmentRow]) -> Result<Vec<SegId>, OutOfMemory>
    ensures all { IfOk result (λ v. IsPermutation (named_ids rows.now) v.items) }
    ensures sorted { IfOk result (λ v. IsSorted id_cmp v.items) }
{
    let mut ids = Vec::new(alloc);
    for row in rows {
        if !row.tombstone {
            ids.push(row.id.twin(alloc)?)?;
        }
    }
    ids.sort()?;
    Ok(ids)
}

fn is_before(cover: &Cover, id: &SegId) -> bool
    ensures { result ≡ is_before cover.now id.now }
{
    id.span.start() < cover.span.start()
        || (id.span.start() == cover.span.start()
            && (id.span.end() < cover.span.end()
                || (id.span.end() == cover.span.end() && id.version < cover.version)))
}

fn is_in(cover: &Cover, id: &SegId) -> bool
    ensures { result ≡ is_in cover.now id.now }
{
    cover.version == id.version && cover.span == id.span
}

// The place of the first id that doesn't stand before those of the chunk.
fn first_of(ids: &[SegId], cover: &Cover) -> usize
    requires sorted { IsSorted id_cmp ids.now }
    requires one { HaveOneSource ids.now }
    ensures { IsPartitionPoint (λ a. is_before cover.now a ≡ true) (λ a. is_before cover.now a ≡ false) ids.now result }
{
    ids.partition_point(|id| is_before(cover, id))
}

// Those of the ids that are of the chunk, each once.
fn ids_in(alloc: Global, ids: &[SegId], cover: &Cover) -> Result<Vec<SegId>, OutOfMemory>
    requires sorted { IsSorted id_cmp ids.now }
    requires one { HaveOneSource ids.now }
    ensures { IfOk result (λ v. AreIdsIn (is_in cover.now) ids.now v.items) }
{
    let mut found = Vec::new(alloc);
    for at in first_of(ids, cover)..ids.len() {
        let id = id_at(ids, at);
        if !is_in(cover, id) {
            return Ok(found);
        }
        if !last_is(&found, id) {
            found.push(id.twin(alloc)?)?;
        }
    }
    Ok(found)
}

/// What is printed of a stretch, where these are the ids of one source. The error is want of memory.
pub fn part_of(alloc: Global, ids: &[SegId], stretch: &Stretch) -> Result<TimelinePart, OutOfMemory>
    requires proper { stretch.now.start <ℤ stretch.now.end }
    requires sorted { IsSorted id_cmp ids.now }
    requires one { HaveOneSource ids.now }
    ensures span { IfOk result (λ q. q.span ≡ stretch_span stretch.now) }
    ensures version { IfOk result (λ q. q.version ≡ stretch.now.top.version) }
    ensures ids { IfOk result (λ q. AreIdsIn (is_in stretch.now.top) ids.now q.ids) }
{
    let found = ids_in(alloc, ids, &stretch.top)?;
    match Span::new(stretch.start, stretch.end) {
        Ok(span) => Ok(TimelinePart {
            span,
            version: stretch.top.version,
            ids: Items::from_vec(found),
        }),
        Err(_) => unreachable!(),
    }
}

/// The longest spans in which one chunk of the source is visible, ascending, each with its version
/// and the ids of its used segments that aren't tombstones. The error is want of memory.
///
/// Used segments of one version that share an instant must have one span, as those of a sound book.
pub fn timeline(
    alloc: Global,
    segments: &Segments,
    source: &Name,
) -> Result<Vec<TimelinePart>, OutOfMemory>
    requires { ShareOneSpan segments.now.segments source.now }
    ensures { IfOk result (λ v. v.items ≡ timeline_of segments.now.segments source.now) }
{
    let rows = segments.rows_of(alloc, source)?;
    let covers = covers_of(alloc, &rows)?;
    let stretches = stretches(alloc, &covers)?;
    let ids = ids_named(alloc, &rows)?;
    let mut parts = Vec::new(alloc);
    for stretch in &stretches {
        parts.push(part_of(alloc, &ids, stretch)?)?;
    }
    Ok(parts)
}
