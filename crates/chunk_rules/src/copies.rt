//! Root pendings, and the copies of them in chunks above.
ghost use Rattle.std.specs.Prelude.{◌&&◌, ◌++◌, ◌<◌, ◌||◌, ◌∷◌, ◌≡◌, [], IfOk, List, Some, false, length, not, slice_get, true};
ghost use Rattle.std.specs.List.{list_any};
ghost use Rattle.row_index.specs.Index.{digest_key, digest_range};
ghost use Rattle.laws_unsound.specs.ChunkRows.{is_root_in};
ghost use Rattle.chunk_rules.specs.Copies.{CopyAt, alike_agrees, are_alike, copies_after, copy_at, copy_digest, copy_digest_in, copy_reaches, has_copy_by, has_root_in, is_copy_at, is_lacking, lacking_reaches, lacks_a_copy, root_in_reaches};
ghost use Rattle.row_search.specs.Digests.{chunk_digest};

use crate::lives::ByOwnChunk;
use book_rows::{ChunkRow, PendingRow};
use row_index::{digest_key, digest_range};
use row_search::OutOfMemory;
use row_search::id_chunks::is_of_chunk;
use row_search::index::{Keying, Rows, Seeking};
use row_search::keys::{is_root, mix_chunk, mix_id, same_id, same_span};
use row_search::same::{BySame, Same};
use seg_names::SegId;
use std::alloc::Global;
use std::marker::Model;

// ---- pendings of one chunk and one root

/// The chunk and the root of a pending.
#[derive(Drop)]
struct CopyKey;

fn copy_digest(id: &SegId, root: &SegId) -> u64
    ensures { result ≡ copy_digest id.now root.now }
{
    mix_id(mix_chunk(14, &id.source, id.span, id.version), root)
}

impl Same<PendingRow> for CopyKey {
    ghost same = { are_alike };

    ghost digest = { λ p. copy_digest p.id p.root };

    ghost agrees = { alike_agrees };

    fn same(&self, row: &PendingRow, other: &PendingRow) -> bool {
        other.id.source == row.id.source
            && same_span(other.id.span, row.id.span)
            && other.id.version == row.id.version
            && same_id(&other.root, &row.root)
    }

    fn digest(&self, row: &PendingRow) -> u64 {
        copy_digest(&row.id, &row.root)
    }
}

/// A pending, and whether one before it is in its chunk and has its root.
#[derive(Drop)]
pub struct CopyRow<'a> {
    pub pending: &'a PendingRow,
    pub again: bool,
}

impl<'a> Model for CopyRow<'a> {
    ghost use Rattle.chunk_rules.specs.Copies.{CopyAt};

    ghost Value = { CopyAt };

    ghost view = { λ a. record { pending = a.pending.now; again = a.again } };
}

// A pending, with whether one of these is in its chunk and has its root.
fn copy_row<'a>(
    alike: &BySame<CopyKey>,
    before: &Rows<'_, PendingRow, BySame<CopyKey>>,
    pending: &'a PendingRow,
) -> CopyRow<'a>
    ensures { result ≡ copy_at before.now pending.now }
{
    let again = before.any(alike, pending);
    CopyRow { pending, again }
}

/// Each pending, with whether one before it is in its chunk and has its root. The error is want of
/// memory.
pub fn copy_rows(alloc: Global, pendings: &[PendingRow]) -> Result<Vec<CopyRow<'_>>, OutOfMemory>
    ensures { IfOk result (λ v. v.items ≡ copies_after [] pendings.now) }
{
    let alike = BySame { same: CopyKey };
    let mut before = Rows::new(alloc, &alike);
    let mut rows = Vec::new(alloc);
    for pending in pendings {
        rows.push(copy_row(&alike, &before, pending))?;
        before.push(pending)?;
    }
    Ok(rows)
}

// ---- copies of a root in a chunk

/// Pendings stand under their chunk and their root.
#[derive(Drop)]
pub struct ByCopy;

impl Keying<CopyRow<'_>> for ByCopy {
    ghost key = { λ x. digest_key (copy_digest x.pending.id x.pending.root) };

    fn key(&self, row: &CopyRow<'_>) -> (u64, i64) {
        digest_key(copy_digest(&row.pending.id, &row.pending.root))
    }
}

/// A copy of a root in a chunk, or one that isn't the first there.
#[derive(Drop)]
struct CopyIn<'a> {
    again: bool,
    chunk: &'a ChunkRow,
    root: &'a SegId,
}

impl Seeking<CopyIn<'_>, CopyRow<'_>> for ByCopy {
    ghost holds = { λ s a x. is_copy_at a.again a.chunk.now a.root.now x };

    ghost ranges = { λ a. digest_range (copy_digest_in a.chunk.now a.root.now) ∷ [] };

    ghost reaches = { λ s a x on. copy_reaches a.again a.chunk.now a.root.now x on };

    fn holds(&self, asked: &CopyIn<'_>, row: &CopyRow<'_>) -> bool {
        (!asked.again || row.again)
            && (is_of_chunk(asked.chunk, &row.pending.id) && same_id(&row.pending.root, asked.root))
    }

    fn range_count(&self, asked: &CopyIn<'_>) -> usize
        ensures { result ≡ length (digest_range (copy_digest_in asked.now.chunk.now asked.now.root.now) ∷ []) }
    {
        let _asked = asked;
        1
    }

    fn range(&self, asked: &CopyIn<'_>, at: usize) -> ((u64, i64), i64)
        requires { at < length (digest_range (copy_digest_in asked.now.chunk.now asked.now.root.now) ∷ []) }
        ensures { slice_get (digest_range (copy_digest_in asked.now.chunk.now asked.now.root.now) ∷ []) at ≡ Some result }
    {
        let _at = at;
        let chunk = asked.chunk;
        digest_range(mix_id(
            mix_chunk(14, &chunk.source, chunk.span, chunk.version),
            asked.root,
        ))
    }
}

fn is_copied(
    copies: &Rows<'_, CopyRow<'_>, ByCopy>,
    again: bool,
    chunk: &ChunkRow,
    root: &SegId,
) -> bool
    ensures { result ≡ list_any (is_copy_at again chunk.now root.now) copies.now }
{
    copies.any(&ByCopy, &CopyIn { again, chunk, root })
}

// ---- what an upper chunk lacks

/// Pendings, found by their chunk and root.
pub trait Copies: Drop {
    ghost rows: { Self → List CopyAt };

    /// Whether the chunk contains the pending's span and has one copy of it.
    fn has_copy(&self, chunk: &ChunkRow, root: &PendingRow) -> bool
        ensures { result ≡ has_copy_by (rows self.now) chunk.now root.now };
}

impl Copies for Rows<'_, CopyRow<'_>, ByCopy> {
    ghost rows = { λ s. s };

    fn has_copy(&self, chunk: &ChunkRow, root: &PendingRow) -> bool
        ensures { result ≡ has_copy_by self.now chunk.now root.now }
    {
        chunk.span.contains(root.id.span)
            && (is_copied(self, false, chunk, &root.id) && !is_copied(self, true, chunk, &root.id))
    }
}

fn is_root_in(chunk: &ChunkRow, pending: &PendingRow) -> bool
    ensures { result ≡ is_root_in chunk.now pending.now }
{
    is_root(pending) && is_of_chunk(chunk, &pending.id)
}

fn range_of(chunk: &ChunkRow) -> ((u64, i64), i64)
    ensures { result ≡ digest_range (chunk_digest chunk.now) }
{
    digest_range(mix_chunk(4, &chunk.source, chunk.span, chunk.version))
}

/// A root pending of a chunk.
#[derive(Drop)]
struct RootIn<'a> {
    chunk: &'a ChunkRow,
}

impl Seeking<RootIn<'_>, PendingRow> for ByOwnChunk {
    ghost holds = { λ s x r. is_root_in x.chunk.now r };

    ghost ranges = { λ x. digest_range (chunk_digest x.chunk.now) ∷ [] };

    ghost reaches = { λ s x r on. root_in_reaches x.chunk.now r on };

    fn holds(&self, asked: &RootIn<'_>, row: &PendingRow) -> bool {
        is_root_in(asked.chunk, row)
    }

    fn range_count(&self, _asked: &RootIn<'_>) -> usize {
        1
    }

    fn range(&self, asked: &RootIn<'_>, _at: usize) -> ((u64, i64), i64) {
        range_of(asked.chunk)
    }
}

/// A root pending of a chunk that one above it lacks.
#[derive(Drop)]
struct Lacking<'a, C: Copies> {
    lower: &'a ChunkRow,
    upper: &'a ChunkRow,
    copies: &'a C,
}

impl<C: Copies> Seeking<Lacking<'_, C>, PendingRow> for ByOwnChunk {
    ghost holds = { λ s x r. is_lacking (C.rows x.copies.now) x.lower.now x.upper.now r };

    ghost ranges = { λ x. digest_range (chunk_digest x.lower.now) ∷ [] };

    ghost reaches = { λ s x r on. lacking_reaches (C.rows x.copies.now) x.lower.now x.upper.now r on };

    fn holds(&self, asked: &Lacking<'_, C>, row: &PendingRow) -> bool {
        is_root_in(asked.lower, row) && !asked.copies.has_copy(asked.upper, row)
    }

    fn range_count(&self, _asked: &Lacking<'_, C>) -> usize {
        1
    }

    fn range(&self, asked: &Lacking<'_, C>, _at: usize) -> ((u64, i64), i64) {
        range_of(asked.lower)
    }
}

/// Whether the chunk has a root pending.
pub fn has_root_in(pendings: &Rows<'_, PendingRow, ByOwnChunk>, chunk: &ChunkRow) -> bool
    ensures { result ≡ has_root_in pendings.now chunk.now }
{
    pendings.any(&ByOwnChunk, &RootIn { chunk })
}

/// Whether the upper chunk lacks a copy of a root pending of the lower one.
pub fn lacks_a_copy<C: Copies>(
    pendings: &Rows<'_, PendingRow, ByOwnChunk>,
    copies: &C,
    lower: &ChunkRow,
    upper: &ChunkRow,
) -> bool
    ensures { result ≡ lacks_a_copy (C.rows copies.now) pendings.now lower.now upper.now }
{
    pendings.any(
        &ByOwnChunk,
        &Lacking {
            lower,
            upper,
            copies,
        },
    )
}
