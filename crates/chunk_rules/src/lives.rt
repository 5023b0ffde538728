//! Live chunks: those of used segments and of pendings.
ghost use Rattle.std.specs.Prelude.{◌&&◌, ◌||◌, ◌∷◌, ◌≡◌, [], IfOk, map};
ghost use Rattle.std.specs.List.{list_any};
ghost use Rattle.row_index.specs.Index.{digest_key, digest_range};
ghost use Rattle.laws_unsound.specs.ChunkRows.{is_live};
ghost use Rattle.book_rows.specs.Allocation.{is_of_chunk};
ghost use Rattle.row_search.specs.Digests.{chunk_digest};
ghost use Rattle.chunk_rules.specs.Lives.{chunk_at, own_chunk_digest, pending_reaches, used_reaches};

use book_rows::{ChunkRow, PendingRow, SegmentRow};
use row_index::{digest_key, digest_range};
use row_search::OutOfMemory;
use row_search::id_chunks::is_of_chunk;
use row_search::index::{Keying, Rows, Seeking, index};
use row_search::keys::mix_chunk;
use seg_names::SegId;
use std::alloc::Global;
use std::marker::Model;

/// A chunk, and whether it is live.
#[derive(Drop)]
pub struct LiveChunk<'a> {
    pub chunk: &'a ChunkRow,
    pub live: bool,
}

impl<'a> Model for LiveChunk<'a> {
    ghost use Rattle.chunk_rules.specs.Lives.{ChunkAt};

    ghost Value = { ChunkAt };

    ghost view = { λ a. record { chunk = a.chunk.now; live = a.live } };
}

/// Rows stand under the chunk of their id.
#[derive(Drop)]
pub struct ByOwnChunk;

fn own_chunk_digest(id: &SegId) -> u64
    ensures { result ≡ own_chunk_digest id.now }
{
    mix_chunk(4, &id.source, id.span, id.version)
}

fn range_of(chunk: &ChunkRow) -> ((u64, i64), i64)
    ensures { result ≡ digest_range (chunk_digest chunk.now) }
{
    digest_range(mix_chunk(4, &chunk.source, chunk.span, chunk.version))
}

impl Keying<SegmentRow> for ByOwnChunk {
    ghost key = { λ r. digest_key (own_chunk_digest r.id) };

    fn key(&self, row: &SegmentRow) -> (u64, i64) {
        digest_key(own_chunk_digest(&row.id))
    }
}

impl Seeking<ChunkRow, SegmentRow> for ByOwnChunk {
    ghost holds = { λ s c r. r.used && is_of_chunk c r.id };

    ghost ranges = { λ c. digest_range (chunk_digest c) ∷ [] };

    ghost reaches = { λ s c r on. used_reaches c r on };

    fn holds(&self, asked: &ChunkRow, row: &SegmentRow) -> bool {
        row.used && is_of_chunk(asked, &row.id)
    }

    fn range_count(&self, _asked: &ChunkRow) -> usize {
        1
    }

    fn range(&self, asked: &ChunkRow, _at: usize) -> ((u64, i64), i64) {
        range_of(asked)
    }
}

impl Keying<PendingRow> for ByOwnChunk {
    ghost key = { λ p. digest_key (own_chunk_digest p.id) };

    fn key(&self, row: &PendingRow) -> (u64, i64) {
        digest_key(own_chunk_digest(&row.id))
    }
}

impl Seeking<ChunkRow, PendingRow> for ByOwnChunk {
    ghost holds = { λ s c p. is_of_chunk c p.id };

    ghost ranges = { λ c. digest_range (chunk_digest c) ∷ [] };

    ghost reaches = { λ s c p on. pending_reaches c p on };

    fn holds(&self, asked: &ChunkRow, row: &PendingRow) -> bool {
        is_of_chunk(asked, &row.id)
    }

    fn range_count(&self, _asked: &ChunkRow) -> usize {
        1
    }

    fn range(&self, asked: &ChunkRow, _at: usize) -> ((u64, i64), i64) {
        range_of(asked)
    }
}

fn has_used(segments: &Rows<'_, SegmentRow, ByOwnChunk>, chunk: &ChunkRow) -> bool
    ensures { result ≡ list_any (λ r. r.used && is_of_chunk chunk.now r.id) segments.now }
{
    segments.any(&ByOwnChunk, chunk)
}

fn has_pending(pendings: &Rows<'_, PendingRow, ByOwnChunk>, chunk: &ChunkRow) -> bool
    ensures { result ≡ list_any (λ p. is_of_chunk chunk.now p.id) pendings.now }
{
    pendings.any(&ByOwnChunk, chunk)
}

fn is_live(
    segments: &Rows<'_, SegmentRow, ByOwnChunk>,
    pendings: &Rows<'_, PendingRow, ByOwnChunk>,
    chunk: &ChunkRow,
) -> bool
    ensures { result ≡ is_live segments.now pendings.now chunk.now }
{
    has_used(segments, chunk) || has_pending(pendings, chunk)
}

// Each chunk, with whether it is live.
fn with_life<'a>(
    alloc: Global,
    segments: &Rows<'_, SegmentRow, ByOwnChunk>,
    pendings: &Rows<'_, PendingRow, ByOwnChunk>,
    chunks: &'a [ChunkRow],
) -> Result<Vec<LiveChunk<'a>>, OutOfMemory>
    ensures { IfOk result (λ v. v.items ≡ map (chunk_at segments.now pendings.now) chunks.now) }
{
    let mut found = Vec::new(alloc);
    for chunk in chunks {
        let live = is_live(segments, pendings, chunk);
        found.push(LiveChunk { chunk, live })?;
    }
    Ok(found)
}

/// Each chunk, with whether it is live. The error is want of memory.
pub fn live_chunks<'a>(
    alloc: Global,
    segments: &[SegmentRow],
    pendings: &[PendingRow],
    chunks: &'a [ChunkRow],
) -> Result<Vec<LiveChunk<'a>>, OutOfMemory>
    ensures { IfOk result (λ v. v.items ≡ map (chunk_at segments.now pendings.now) chunks.now) }
{
    let segments = index(alloc, segments, &ByOwnChunk)?;
    let pendings = index(alloc, pendings, &ByOwnChunk)?;
    with_life(alloc, &segments, &pendings, chunks)
}
