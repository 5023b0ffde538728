//! Ids and the rows of their chunks.
ghost use Rattle.std.specs.Prelude.{◌&&◌, ◌==◌, ◌∷◌, ◌≡◌, [], nat_lt};
ghost use Rattle.std.specs.List.{list_all, list_any};
ghost use Rattle.row_index.specs.Index.{digest_key, digest_range};
ghost use Rattle.book_rows.specs.Allocation.{is_of_chunk};
ghost use Rattle.laws_unsound.specs.ShapeRows.{has_chunk};
ghost use Rattle.row_search.specs.Digests.{chunk_digest, chunk_reaches, mix_chunk};

use crate::index::{Keying, Rows, Seeking};
use crate::keys::{mix_chunk, same_span};
use book_rows::ChunkRow;
use row_index::{digest_key, digest_range};
use seg_names::SegId;

/// Chunks stand under their source, span and version.
#[derive(Drop)]
pub struct ByChunk;

impl Keying<ChunkRow> for ByChunk {
    ghost key = { λ c. digest_key (chunk_digest c) };

    fn key(&self, row: &ChunkRow) -> (u64, i64) {
        digest_key(mix_chunk(4, &row.source, row.span, row.version))
    }
}

/// Whether the id is in the chunk of this row.
pub fn is_of_chunk(chunk: &ChunkRow, id: &SegId) -> bool
    ensures { result ≡ is_of_chunk chunk.now id.now }
{
    id.source == chunk.source && same_span(id.span, chunk.span) && id.version == chunk.version
}

/// The range of the chunk of an id.
pub fn chunk_range(id: &SegId) -> ((u64, i64), i64)
    ensures { result ≡ digest_range (mix_chunk 4 id.now.source id.now.span id.now.version) }
{
    digest_range(mix_chunk(4, &id.source, id.span, id.version))
}

// The chunk of an id, with a next part above its own.
impl Seeking<SegId, ChunkRow> for ByChunk {
    ghost holds = { λ s a c. is_of_chunk c a && nat_lt a.part c.next };

    ghost ranges = { λ a. digest_range (mix_chunk 4 a.source a.span a.version) ∷ [] };

    ghost reaches = { λ s a c on. chunk_reaches a c (nat_lt a.part c.next) on };

    fn holds(&self, asked: &SegId, row: &ChunkRow) -> bool {
        is_of_chunk(row, asked) && asked.part < row.next
    }

    fn range_count(&self, _asked: &SegId) -> usize {
        1
    }

    fn range(&self, asked: &SegId, _at: usize) -> ((u64, i64), i64) {
        chunk_range(asked)
    }
}

/// An id whose chunk is to have one part in its core.
#[derive(Drop)]
pub struct Single<'a> {
    pub id: &'a SegId,
}

impl Seeking<Single<'_>, ChunkRow> for ByChunk {
    ghost holds = { λ s x c. is_of_chunk c x.id.now && (c.core == 1) };

    ghost ranges = { λ x. digest_range (mix_chunk 4 x.id.now.source x.id.now.span x.id.now.version) ∷ [] };

    ghost reaches = { λ s x c on. chunk_reaches x.id.now c (c.core == 1) on };

    fn holds(&self, asked: &Single<'_>, row: &ChunkRow) -> bool {
        is_of_chunk(row, asked.id) && row.core == 1
    }

    fn range_count(&self, _asked: &Single<'_>) -> usize {
        1
    }

    fn range(&self, asked: &Single<'_>, _at: usize) -> ((u64, i64), i64) {
        chunk_range(asked.id)
    }
}

/// Whether the id has its chunk row, with a next part above its own.
pub fn has_chunk(chunks: &Rows<'_, ChunkRow, ByChunk>, id: &SegId) -> bool
    ensures { result ≡ has_chunk chunks.now id.now }
{
    chunks.any(&ByChunk, id)
}

/// Whether each of the ids has.
pub fn have_chunks(chunks: &Rows<'_, ChunkRow, ByChunk>, ids: &[SegId]) -> bool
    ensures { result ≡ list_all (has_chunk chunks.now) ids.now }
{
    ids.iter().all(|id| has_chunk(chunks, id))
}

/// Whether the id's chunk has one part in its core.
pub fn is_single(chunks: &Rows<'_, ChunkRow, ByChunk>, id: &SegId) -> bool
    ensures { result ≡ list_any (λ c. is_of_chunk c id.now && (c.core == 1)) chunks.now }
{
    chunks.any(&ByChunk, &Single { id })
}
