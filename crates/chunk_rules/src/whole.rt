//! Cores of chunks: each part below it is there, and it is one that the owner of the chunk may have.
ghost use Rattle.std.specs.Prelude.{◌&&◌, ◌+◌, ◌<◌, ◌==◌, ◌^◌, ◌||◌, ◌∷◌, ◌≡◌, [], IfOk, cond, int_lt, length, map, nat_lt, not, pos};
ghost use Rattle.std.specs.List.{list_any};
ghost use Rattle.std.specs.Ordering.{int_eq};
ghost use Rattle.iv_span.specs.Extent.{covers};
ghost use Rattle.book_rows.specs.Kinds.{same_kind};
ghost use Rattle.book_rows.specs.declared.kinds.LockKind.TheVariants.{Append, Replace, Shared};
ghost use Rattle.row_index.specs.Index.{digest_key, digest_range};
ghost use Rattle.laws_unsound.specs.ChunkRows.{has_part, implies, is_whole, owns, whole_row};
ghost use Rattle.laws_unsound.specs.Rows.{first_failing};
ghost use Rattle.book_rows.specs.Allocation.{is_of_chunk};
ghost use Rattle.row_search.specs.Digests.{id_digest};
ghost use Rattle.chunk_rules.specs.Lives.{chunk_at};
ghost use Rattle.chunk_rules.specs.Owners.{has_core_by, is_misfit, misfit_reaches, owner_digest, owner_key, owner_ranges, part_digest, part_reaches};
ghost use Rattle.row_search.specs.Starts.{IsCounted};

use crate::lives::LiveChunk;
use book_rows::{Book, ChunkRow, LockKind, PosseRow, SegmentRow};
use row_index::{digest_key, digest_range, mix, mix_bytes};
use row_search::OutOfMemory;
use row_search::id_chunks::is_of_chunk;
use row_search::index::{Keying, Rows, Seeking, index};
use row_search::keys::{mix_chunk, mix_id};
use row_search::rows::{Test, first_failing};
use row_search::starts::Starts;
use seg_names::Name;
use std::alloc::Global;

// ---- parts

/// Segments stand under their id.
#[derive(Drop)]
pub struct BySegmentId;

impl Keying<SegmentRow> for BySegmentId {
    ghost key = { λ r. digest_key (id_digest r.id) };

    fn key(&self, row: &SegmentRow) -> (u64, i64) {
        digest_key(mix_id(5, &row.id))
    }
}

/// A part of a chunk, of which a used segment is to be.
#[derive(Drop)]
struct Part<'a> {
    chunk: &'a ChunkRow,
    part: u32,
}

impl Seeking<Part<'_>, SegmentRow> for BySegmentId {
    ghost holds = { λ s x r. r.used && (is_of_chunk x.chunk.now r.id && (r.id.part == x.part)) };

    ghost ranges = { λ x. digest_range (part_digest x.chunk.now x.part) ∷ [] };

    ghost reaches = { λ s x r on. part_reaches x.chunk.now x.part r on };

    fn holds(&self, asked: &Part<'_>, row: &SegmentRow) -> bool {
        row.used && (is_of_chunk(asked.chunk, &row.id) && row.id.part == asked.part)
    }

    fn range_count(&self, _asked: &Part<'_>) -> usize {
        1
    }

    fn range(&self, asked: &Part<'_>, _at: usize) -> ((u64, i64), i64) {
        let chunk = asked.chunk;
        digest_range(mix(
            mix_chunk(5, &chunk.source, chunk.span, chunk.version),
            u64::from(asked.part),
        ))
    }
}

fn has_part(segments: &Rows<'_, SegmentRow, BySegmentId>, chunk: &ChunkRow, part: u32) -> bool
    ensures { result ≡ has_part segments.now chunk.now part }
{
    segments.any(&BySegmentId, &Part { chunk, part })
}

fn is_whole(segments: &Rows<'_, SegmentRow, BySegmentId>, chunk: &ChunkRow) -> bool
    ensures { result ≡ is_whole segments.now chunk.now }
{
    (0..chunk.core).all(|part| has_part(segments, chunk, part))
}

// ---- owners

/// A chunk, and whether all parts of its core are there.
#[derive(Drop)]
struct Owned<'a> {
    chunk: &'a ChunkRow,
    whole: bool,
}

/// Locks stand under their source and version, those that append apart.
#[derive(Drop)]
pub struct ByVersion;

fn is_append(kind: LockKind) -> bool
    ensures { result ≡ same_kind kind Append }
{
    matches!(kind, LockKind::Append)
}

fn is_shared(kind: LockKind) -> bool
    ensures { result ≡ same_kind kind Shared }
{
    matches!(kind, LockKind::Shared)
}

fn is_replacing(kind: LockKind) -> bool
    ensures { result ≡ same_kind kind Replace }
{
    matches!(kind, LockKind::Replace)
}

fn bit(on: bool) -> u64
    ensures { result ≡ cond on 1 0 }
{
    if on { 1 } else { 0 }
}

fn owner_digest(appends: bool, source: &Name, version: i64) -> u64
    ensures { result ≡ owner_digest appends source.now version }
{
    let named = mix_bytes(13, source.bytes());
    mix(mix(named, version.unsigned_abs()), bit(appends))
}

impl Keying<PosseRow> for ByVersion {
    ghost key = { owner_key };

    fn key(&self, row: &PosseRow) -> (u64, i64) {
        digest_key(owner_digest(is_append(row.lock_kind), &row.source, row.version))
    }
}

fn owns(chunk: &ChunkRow, lock: &PosseRow) -> bool
    ensures { result ≡ owns chunk.now lock.now }
{
    !lock.revoked && (chunk.source == lock.source && chunk.version == lock.version)
}

fn fits(chunk: &ChunkRow, lock: &PosseRow) -> bool
    ensures { result ≡ (implies (same_kind lock.now.lock_kind Shared) (chunk.now.core == 0) && (implies (same_kind lock.now.lock_kind Replace) (nat_lt 0 chunk.now.core) && implies (int_lt (pos 0) chunk.now.version) (covers lock.now.span chunk.now.span))) }
{
    (!is_shared(lock.lock_kind) || chunk.core == 0)
        && ((!is_replacing(lock.lock_kind) || 0 < chunk.core)
            && (0 >= chunk.version || lock.span.contains(chunk.span)))
}

impl Seeking<Owned<'_>, PosseRow> for ByVersion {
    ghost holds = { λ s x q. is_misfit x.chunk.now x.whole q };

    ghost ranges = { λ x. owner_ranges x.chunk.now x.whole };

    ghost reaches = { λ s x q on. misfit_reaches x.chunk.now x.whole q on };

    fn holds(&self, asked: &Owned<'_>, row: &PosseRow) -> bool {
        owns(asked.chunk, row) && !(asked.whole && fits(asked.chunk, row))
    }

    fn range_count(&self, asked: &Owned<'_>) -> usize {
        // Locks that append fit each whole chunk of version 0, and may be many.
        if asked.whole && 0 >= asked.chunk.version {
            1
        } else {
            2
        }
    }

    fn range(&self, asked: &Owned<'_>, at: usize) -> ((u64, i64), i64) {
        let chunk = asked.chunk;
        digest_range(owner_digest(at == 1, &chunk.source, chunk.version))
    }
}

/// What chunks are held against.
#[derive(Drop)]
struct Cores<'a, 'b, 'c, 'd> {
    locks: &'a Rows<'b, PosseRow, ByVersion>,
    segments: &'c Rows<'d, SegmentRow, BySegmentId>,
}

impl Test<LiveChunk<'_>> for Cores<'_, '_, '_, '_> {
    ghost passes = { λ s x. has_core_by s.locks.now s.segments.now x };

    fn passes(&self, row: &LiveChunk<'_>) -> bool {
        let chunk = row.chunk;
        let whole = is_whole(self.segments, chunk);
        (!row.live || whole)
            && ((chunk.version != 0 || chunk.core == 0)
                && !self.locks.any(&ByVersion, &Owned { chunk, whole }))
    }
}

fn first_torn(
    before: u64,
    locks: &Rows<'_, PosseRow, ByVersion>,
    segments: &Rows<'_, SegmentRow, BySegmentId>,
    chunks: &[LiveChunk<'_>],
) -> Option<u64>
    requires { before + length chunks.now < 2 ^ 64 }
    ensures { result ≡ first_failing before (has_core_by locks.now segments.now) chunks.now }
{
    first_failing(before, chunks, &Cores { locks, segments })
}

/// The first chunk whose core isn't what it has to be, where so many rows stand before the table's
/// first. The error is want of memory.
#[tactic(auto, using(crate::proofs::Owning::cores_same))]
pub fn whole_row(
    alloc: Global,
    book: &Book,
    starts: Starts,
    chunks: &[LiveChunk<'_>],
) -> Result<Option<u64>, OutOfMemory>
    requires counted { IsCounted book.now starts }
    requires chunks { chunks.now ≡ map (chunk_at book.now.segments book.now.pendings) book.now.chunks }
    ensures { IfOk result (λ row. row ≡ whole_row book.now) }
{
    let locks = index(alloc, book.posses.as_slice(), &ByVersion)?;
    let segments = index(alloc, book.segments.as_slice(), &BySegmentId)?;
    Ok(first_torn(starts.chunks, &locks, &segments, chunks))
}
