//! Chunks: their keys, what they are looked for by, and how their next part is set.
ghost use Rattle.std.specs.Prelude.{◌≡◌, ◌==◌, ◌<◌, ◌&&◌, [], ◌∷◌, Some, bytes_eq, length, not, slice_get};
ghost use Rattle.std.specs.Ordering.{int_eq};
ghost use Rattle.iv_span.specs.Extent.{overlap};
ghost use Rattle.book_rows.specs.Allocation.{is_of_chunk};
ghost use Rattle.row_index.specs.Index.{digest_range};
ghost use Rattle.span_keys.specs.Classes.{span_ranges};
ghost use Rattle.tab_segments.specs.Keys.{chunk_digest, chunk_keys, version_digest};
ghost use Rattle.tab_segments.specs.Laws.{chunk_covers, next_covers, next_settles, version_covers};
ghost use Rattle.tab_segments.specs.SegmentRows.{chunk_id, with_next};

use crate::entries::{chunk_digest, same_span};
use book_rows::ChunkRow;
use iv_span::Span;
use row_index::{Keyed, Query, digest_key, digest_range, mix, mix_bytes};
use row_table::Change;
use seg_names::Name;
use span_keys::{RANGES, span_key, span_range};
use std::marker::Model;

/// A chunk in the table. Contracts see its row.
#[derive(Drop)]
pub struct Chunk {
    pub row: ChunkRow,
}

impl Model for Chunk {
    ghost use Rattle.book_rows.specs.declared.rows.ChunkRow.{ChunkRow};

    ghost Value = { ChunkRow };

    ghost view = { λ a. a.row };
}

fn version_digest(source: &Name, version: i64) -> u64
    ensures { result ≡ version_digest source.now version }
{
    mix(mix_bytes(2, source.bytes()), version.unsigned_abs())
}

fn chunk_key(row: &ChunkRow, at: usize) -> (u64, i64)
    requires { at < length (chunk_keys row.now) }
    ensures { slice_get (chunk_keys row.now) at ≡ Some result }
{
    match at {
        0 => digest_key(chunk_digest(&row.source, row.span, row.version)),
        _ => span_key(version_digest(&row.source, row.version), row.span),
    }
}

impl Keyed for Chunk {
    ghost keys = { chunk_keys };

    fn key_count(&self) -> usize {
        2
    }

    fn key(&self, at: usize) -> (u64, i64) {
        chunk_key(&self.row, at)
    }
}

fn is_of_chunk(row: &ChunkRow, source: &Name, span: Span, version: i64) -> bool
    ensures { result ≡ is_of_chunk row.now (chunk_id source.now span version) }
{
    *source == row.source && same_span(span, row.span) && version == row.version
}

/// The chunk of a source, span and version.
#[derive(Drop)]
pub struct OfChunk<'a> {
    pub source: &'a Name,
    pub span: Span,
    pub version: i64,
}

impl Query<Chunk> for OfChunk<'_> {
    ghost passes = { λ q c. is_of_chunk c (chunk_id q.source.now q.span q.version) };

    ghost ranges = { λ q. digest_range (chunk_digest (chunk_id q.source.now q.span q.version)) ∷ [] };

    ghost covers = { λ q c on. chunk_covers (chunk_id q.source.now q.span q.version) c on };

    fn passes(&self, chunk: &Chunk) -> bool {
        is_of_chunk(&chunk.row, self.source, self.span, self.version)
    }

    fn range_count(&self) -> usize {
        1
    }

    fn range(&self, _at: usize) -> ((u64, i64), i64) {
        digest_range(chunk_digest(self.source, self.span, self.version))
    }
}

/// The chunks of a source and version that overlap a span.
#[derive(Drop)]
pub struct OfVersion<'a> {
    pub source: &'a Name,
    pub span: Span,
    pub version: i64,
}

impl Query<Chunk> for OfVersion<'_> {
    ghost passes = { λ q c. bytes_eq c.source q.source.now && int_eq c.version q.version && overlap c.span q.span };

    ghost ranges = { λ q. span_ranges (version_digest q.source.now q.version) q.span };

    ghost covers = { λ q c on. version_covers q.source.now q.span q.version c on };

    fn passes(&self, chunk: &Chunk) -> bool {
        chunk.row.source == *self.source
            && chunk.row.version == self.version
            && chunk.row.span.overlaps(self.span)
    }

    fn range_count(&self) -> usize {
        RANGES
    }

    fn range(&self, at: usize) -> ((u64, i64), i64) {
        span_range(version_digest(self.source, self.version), self.span, at)
    }
}

/// The chunk of a source, span and version gives another part next.
#[derive(Drop)]
pub struct NextSet<'a> {
    pub source: &'a Name,
    pub span: Span,
    pub version: i64,
    pub next: u32,
}

impl Query<Chunk> for NextSet<'_> {
    ghost passes = { λ q c. is_of_chunk c (chunk_id q.source.now q.span q.version) && not (c.next == q.next) };

    ghost ranges = { λ q. digest_range (chunk_digest (chunk_id q.source.now q.span q.version)) ∷ [] };

    ghost covers = { λ q c on. next_covers (chunk_id q.source.now q.span q.version) q.next c on };

    fn passes(&self, chunk: &Chunk) -> bool {
        is_of_chunk(&chunk.row, self.source, self.span, self.version) && chunk.row.next != self.next
    }

    fn range_count(&self) -> usize {
        1
    }

    fn range(&self, _at: usize) -> ((u64, i64), i64) {
        digest_range(chunk_digest(self.source, self.span, self.version))
    }
}

impl Change<Chunk> for NextSet<'_> {
    ghost after = { λ q c. with_next (chunk_id q.source.now q.span q.version) q.next c };

    ghost keeps = { λ q c k there. there };

    ghost settles = { λ q c on. next_settles (chunk_id q.source.now q.span q.version) q.next c on };

    fn change(&self, chunk: &mut Chunk) {
        if is_of_chunk(&chunk.row, self.source, self.span, self.version) {
            chunk.row.next = self.next;
        }
    }

    fn lost(&self) -> Option<(u64, i64)> {
        None
    }
}
