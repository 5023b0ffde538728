//! The place of a new id.
ghost use Rattle.std.specs.Prelude.{◌≡◌, None, find, ℤ};
ghost use Rattle.iv_time.specs.Buckets.{and_finer, bucket_of};
ghost use Rattle.iv_time.specs.Range.{IsInstant};
ghost use Rattle.book_rows.specs.Allocation.{free_bucket, free_or, is_cut_by, is_free, place, uncut};
ghost use Rattle.tab_segments.specs.SegmentRows.{chunk_id};
ghost use Rattle.seg_alloc.specs.Answers.{IsPlaced};

use crate::faults::PlaceFault;
use book_rows::Place;
use iv_span::Span;
use iv_time::{Granularity, bucket, finer};
use seg_names::Name;
use std::alloc::Global;
use tab_pending::Pendings;
use tab_segments::Segments;

fn is_free(segments: &Segments, pendings: &Pendings, source: &Name, span: Span) -> bool
    ensures { result ≡ is_free segments.now.segments pendings.now.pendings source.now span }
{
    !segments.is_used_over(source, span) && !pendings.overlaps(source, span)
}

// The bucket of this granularity, where it is free.
fn free_of(
    segments: &Segments,
    pendings: &Pendings,
    source: &Name,
    at: i64,
    granularity: Granularity,
) -> Option<Span>
    requires { IsInstant at }
    ensures { result ≡ free_or segments.now.segments pendings.now.pendings source.now (bucket_of granularity at) None }
{
    let (start, end) = bucket(granularity, at)?;
    let Ok(span) = Span::new(start, end) else {
        return None;
    };
    if is_free(segments, pendings, source, span) {
        Some(span)
    } else {
        None
    }
}

// The first bucket that is free, of the granularity and then each finer one.
fn free_bucket(
    segments: &Segments,
    pendings: &Pendings,
    source: &Name,
    at: i64,
    granularity: Granularity,
) -> Option<Span>
    requires { IsInstant at }
    ensures { result ≡ free_bucket segments.now.segments pendings.now.pendings source.now at (and_finer granularity) }
{
    let mut next = Some(granularity);
    while let Some(asked) = next {
        if let Some(span) = free_of(segments, pendings, source, at, asked) {
            return Some(span);
        }
        next = finer(asked);
    }
    None
}

// The place in the chunk of a span and a version, unless a greater version cuts it.
fn uncut(
    alloc: Global,
    segments: &Segments,
    source: &Name,
    chunk: (Span, i64),
) -> Result<Place, PlaceFault>
    ensures { (at : ℤ) → IsPlaced at result (uncut (chunk_id source.now chunk.0 chunk.1) (find (is_cut_by (chunk_id source.now chunk.0 chunk.1)) segments.now.segments)) }
{
    let (span, version) = chunk;
    match segments.cut_by(source, span, version) {
        Some(id) => Err(PlaceFault::Cut(id.twin(alloc)?)),
        None => Ok(Place {
            span,
            version: Some(version),
        }),
    }
}

/// The place for a new id at an instant: the chunk that is visible there, else the chunk of the first
/// pending there, else the first bucket, of the granularity and then each finer one, that no used
/// segment and no pending overlaps. `Cut` where a greater version overlaps the visible chunk,
/// `NoBucket` where no bucket is free.
pub fn choose(
    alloc: Global,
    segments: &Segments,
    pendings: &Pendings,
    source: &Name,
    at: i64,
    granularity: Granularity,
) -> Result<Place, PlaceFault>
    requires { IsInstant at }
    ensures { IsPlaced at result (place segments.now.segments pendings.now.pendings source.now at granularity) }
{
    if let Some(chunk) = segments.visible_at(source, at) {
        return uncut(alloc, segments, source, chunk);
    }
    if let Some(pending) = pendings.first_at(source, at) {
        return Ok(Place {
            span: pending.id.span,
            version: Some(pending.id.version),
        });
    }
    match free_bucket(segments, pendings, source, at, granularity) {
        Some(span) => Ok(Place {
            span,
            version: None,
        }),
        None => Err(PlaceFault::NoBucket),
    }
}
