//! Live chunks of one version: those that overlap are one.
ghost use Rattle.std.specs.Prelude.{◌+◌, ◌<◌, ◌^◌, ◌≡◌, IfOk, List, Some, cond, length, map, slice_get};
ghost use Rattle.laws_unsound.specs.ChunkRows.{are_two_spans};
ghost use Rattle.laws_unsound.specs.Rows.{first_clashing};
ghost use Rattle.book_rows.specs.declared.rows.ChunkRow.{ChunkRow};
ghost use Rattle.book_rows.specs.declared.rows.PendingRow.{PendingRow};
ghost use Rattle.book_rows.specs.declared.rows.SegmentRow.{SegmentRow};
ghost use Rattle.chunk_rules.specs.Lives.{are_apart, chunk_at, version_digest, version_key, version_ranges, version_reaches};

use crate::lives::LiveChunk;
use book_rows::ChunkRow;
use row_index::{mix, mix_bytes};
use row_search::OutOfMemory;
use row_search::clashes::first_clashing;
use row_search::index::{Keying, Seeking};
use row_search::keys::same_span;
use span_keys::{RANGES, span_key, span_range};
use std::alloc::Global;

/// Live chunks of one version that overlap and aren't one.
#[derive(Drop)]
struct TwoSpans;

fn bit(on: bool) -> u64
    ensures { result ≡ cond on 1 0 }
{
    if on { 1 } else { 0 }
}

fn version_digest(live: bool, chunk: &ChunkRow) -> u64
    ensures { result ≡ version_digest live chunk.now }
{
    let named = mix_bytes(11, chunk.source.bytes());
    mix(mix(named, chunk.version.unsigned_abs()), bit(live))
}

impl Keying<LiveChunk<'_>> for TwoSpans {
    ghost key = { version_key };

    fn key(&self, row: &LiveChunk<'_>) -> (u64, i64) {
        span_key(version_digest(row.live, row.chunk), row.chunk.span)
    }
}

impl<'a, 'b> Seeking<LiveChunk<'a>, LiveChunk<'b>> for TwoSpans {
    ghost holds = { λ s x y. are_apart x y };

    ghost ranges = { version_ranges };

    ghost reaches = { λ s x y on. version_reaches x y on };

    fn holds(&self, asked: &LiveChunk<'a>, row: &LiveChunk<'b>) -> bool {
        asked.live
            && (row.live
                && (asked.chunk.source == row.chunk.source
                    && (asked.chunk.span.overlaps(row.chunk.span)
                        && (asked.chunk.version == row.chunk.version
                            && !same_span(asked.chunk.span, row.chunk.span)))))
    }

    fn range_count(&self, asked: &LiveChunk<'a>) -> usize
        ensures { result ≡ length (version_ranges asked.now) }
    {
        let _asked = asked;
        RANGES
    }

    fn range(&self, asked: &LiveChunk<'a>, at: usize) -> ((u64, i64), i64)
        requires { at < length (version_ranges asked.now) }
        ensures { slice_get (version_ranges asked.now) at ≡ Some result }
    {
        span_range(version_digest(true, asked.chunk), asked.chunk.span, at)
    }
}

/// The first live chunk that overlaps a later one of its version, where so many rows stand before the
/// table's first. The error is want of memory.
pub fn one_span_row(
    alloc: Global,
    before: u64,
    chunks: &[LiveChunk<'_>],
) -> Result<Option<u64>, OutOfMemory>
    requires { before + length chunks.now < 2 ^ 64 }
    ensures { IfOk result (λ row. (rows : List SegmentRow) (ps : List PendingRow) (cs : List ChunkRow) → chunks.now ≡ map (chunk_at rows ps) cs → row ≡ first_clashing before (are_two_spans rows ps) cs) }
{
    let row = first_clashing(alloc, before, chunks, &TwoSpans)?;
    Ok(row)
}
