//! Stored offsets: the ranges that publications read go on from one another, and end there.
ghost use Rattle.std.specs.Prelude.{◌&&◌, ◌∷◌, ◌≡◌, [], IfOk, Some, length, slice_get};
ghost use Rattle.std.specs.List.{list_all};
ghost use Rattle.book_rows.specs.Offsets.{is_at, stored};
ghost use Rattle.row_index.specs.Index.{digest_key, digest_range};
ghost use Rattle.laws_unsound.specs.HistoryRows.{ends_at, same_offset_or_none, tiled_row};
ghost use Rattle.offset_rules.specs.Marks.{are_tiled_by, are_tiled_in, history_of, is_tiled_by, part_digest, stored_reaches};

use crate::marks::{Marks, part_digest};
use book_rows::{Book, OffsetRow, Publication, Range, Ranges};
use row_index::{digest_key, digest_range};
use row_search::OutOfMemory;
use row_search::index::{Keying, Rows, Seeking, index};
use row_search::rows::zero_unless;
use seg_names::Name;
use std::alloc::Global;

// ---- stored offsets

/// Stored offsets stand under their source, stream and partition.
#[derive(Drop)]
pub struct ByPart;

impl Keying<OffsetRow> for ByPart {
    ghost key = { λ r. digest_key (part_digest 18 r.source r.stream r.partition) };

    fn key(&self, row: &OffsetRow) -> (u64, i64) {
        digest_key(part_digest(18, &row.source, &row.stream, row.partition))
    }
}

/// A partition of a source's stream.
#[derive(Drop)]
struct Part<'a> {
    source: &'a Name,
    stream: &'a Name,
    partition: u32,
}

impl Seeking<Part<'_>, OffsetRow> for ByPart {
    ghost holds = { λ s x r. is_at x.source.now x.stream.now x.partition r };

    ghost ranges = { λ x. digest_range (part_digest 18 x.source.now x.stream.now x.partition) ∷ [] };

    ghost reaches = { λ s x r on. stored_reaches x.source.now x.stream.now x.partition r on };

    fn holds(&self, asked: &Part<'_>, row: &OffsetRow) -> bool {
        row.source == *asked.source
            && row.stream == *asked.stream
            && row.partition == asked.partition
    }

    fn range_count(&self, _asked: &Part<'_>) -> usize {
        1
    }

    fn range(&self, asked: &Part<'_>, _at: usize) -> ((u64, i64), i64) {
        digest_range(part_digest(18, asked.source, asked.stream, asked.partition))
    }
}

/// The offset that is stored of a partition.
pub fn stored(
    offsets: &Rows<'_, OffsetRow, ByPart>,
    source: &Name,
    stream: &Name,
    partition: u32,
) -> Option<u64>
    ensures { result ≡ stored offsets.now source.now stream.now partition }
{
    let part = Part {
        source,
        stream,
        partition,
    };
    match offsets.first(&ByPart, &part) {
        Some(row) => Some(row.offset),
        None => None,
    }
}

// ---- the test

fn ends_at(end: Option<Option<u64>>, offset: Option<u64>) -> bool
    ensures { result ≡ ends_at end offset }
{
    match (end, offset) {
        (Some(Some(end)), Some(offset)) => end == offset,
        (Some(None), None) => true,
        _ => false,
    }
}

#[tactic(auto, unfolding(crate::specs::Marks::is_tiled_by))]
fn is_tiled(
    marks: &Marks<'_>,
    offsets: &Rows<'_, OffsetRow, ByPart>,
    source: &Name,
    stream: &Name,
    partition: u32,
) -> bool
    ensures { result ≡ is_tiled_by marks.now offsets.now source.now stream.now partition }
{
    let end = marks.end_of(source, stream, partition);
    ends_at(end, stored(offsets, source, stream, partition))
}

fn are_all_tiled(
    marks: &Marks<'_>,
    offsets: &Rows<'_, OffsetRow, ByPart>,
    source: &Name,
    stream: &Name,
    parts: &[Range],
) -> bool
    ensures { result ≡ list_all (λ r. is_tiled_by marks.now offsets.now source.now stream.now r.partition) parts.now }
{
    parts.iter().all(|range| is_tiled(marks, offsets, source, stream, range.partition))
}

#[tactic(auto, unfolding(crate::specs::Marks::are_tiled_in))]
fn are_tiled_in(
    marks: &Marks<'_>,
    offsets: &Rows<'_, OffsetRow, ByPart>,
    source: &Name,
    ranges: &Option<Ranges>,
) -> bool
    ensures { result ≡ are_tiled_in marks.now offsets.now source.now ranges.now }
{
    match ranges {
        Some(ranges) => are_all_tiled(
            marks,
            offsets,
            source,
            &ranges.stream,
            ranges.parts.as_slice(),
        ),
        None => true,
    }
}

fn are_read_to_the_end(
    marks: &Marks<'_>,
    stored: &Rows<'_, OffsetRow, ByPart>,
    publications: &[Publication],
) -> bool
    ensures { result ≡ list_all (λ m. are_tiled_in marks.now stored.now m.source m.ranges) publications.now }
{
    publications.iter().all(|publication| are_tiled_in(
        marks,
        stored,
        &publication.source,
        &publication.ranges,
    ))
}

fn are_ends(marks: &Marks<'_>, stored: &Rows<'_, OffsetRow, ByPart>, offsets: &[OffsetRow]) -> bool
    ensures { result ≡ list_all (λ r. is_tiled_by marks.now stored.now r.source r.stream r.partition) offsets.now }
{
    offsets.iter().all(|row| is_tiled(marks, stored, &row.source, &row.stream, row.partition))
}

fn are_tiled(
    marks: &Marks<'_>,
    stored: &Rows<'_, OffsetRow, ByPart>,
    publications: &[Publication],
    offsets: &[OffsetRow],
) -> bool
    requires { stored.now ≡ offsets.now }
    ensures { result ≡ are_tiled_by marks.now publications.now offsets.now }
{
    are_read_to_the_end(marks, stored, publications) && are_ends(marks, stored, offsets)
}

/// Row 0 where ranges of a partition don't go on from one another, or don't end at what is stored. The
/// error is want of memory.
pub fn tiled_row(alloc: Global, book: &Book) -> Result<Option<u64>, OutOfMemory>
    ensures { IfOk result (λ row. row ≡ tiled_row book.now) }
{
    let publications = book.publications.as_slice();
    let offsets = book.offsets.as_slice();
    let marks = Marks::of(alloc, publications)?;
    let stored = index(alloc, offsets, &ByPart)?;
    let tiled = are_tiled(&marks, &stored, publications, offsets);
    let row = zero_unless(tiled);
    Ok(row)
}
