//! Keys and versions: the least row that has one in common with another, or isn't in order.
ghost use Rattle.std.specs.Prelude.{◌++◌, ◌+◌, ◌<◌, ◌^◌, ◌∷◌, ◌≡◌, IfOk, int_le, length, map, nat_lt};
ghost use Rattle.seg_names.specs.Ids.{same_id};
ghost use Rattle.book_rows.specs.Shape.{fits_version, pending_ids, segment_ids};
ghost use Rattle.laws_unsound.specs.Rows.{first_clashing, first_failing, least};
ghost use Rattle.laws_unsound.specs.ShapeRows.{key_rows, version_rows};
ghost use Rattle.shape_rules.specs.Clauses.{id_keys, lock_keys, request_keys, stream_keys};
ghost use Rattle.row_search.specs.Digests.{id_agrees, id_digest};
ghost use Rattle.row_search.specs.Starts.{IsCounted};

use crate::once::once_row;
use crate::order::{ByNumber, ByPartition, first_behind};
use book_rows::{Book, ChunkRow, LockKind, PendingRow, PosseRow, SegmentRow};
use row_search::OutOfMemory;
use row_search::clashes::first_clashing;
use row_search::keys::{
    ChunkKey, LockNumber, LockVersion, Request, SequenceKey, SupervisorKey, TaskKey, UpgradeKey,
    mix_id, same_id,
};
use row_search::rows::{Test, first_failing, lesser};
use row_search::same::{BySame, Same};
use row_search::starts::Starts;
use seg_names::SegId;
use std::alloc::Global;
use std::marker::Model;

// ---- ids of segments and pendings

/// An id that is lent.
#[derive(Drop)]
struct Lent<'a> {
    id: &'a SegId,
}

impl<'a> Model for Lent<'a> {
    ghost use Rattle.seg_names.specs.declared.seg_id.SegId.{SegId};

    ghost Value = { SegId };

    ghost view = { λ a. a.id.now };
}

/// An id.
#[derive(Drop)]
struct IdKey;

impl Same<Lent<'_>> for IdKey {
    ghost same = { same_id };

    ghost digest = { id_digest };

    ghost agrees = { id_agrees };

    fn same(&self, row: &Lent<'_>, other: &Lent<'_>) -> bool {
        same_id(row.id, other.id)
    }

    fn digest(&self, row: &Lent<'_>) -> u64 {
        mix_id(5, row.id)
    }
}

fn lent_ids<'a>(
    alloc: Global,
    segments: &'a [SegmentRow],
    pendings: &'a [PendingRow],
) -> Result<Vec<Lent<'a>>, OutOfMemory>
    ensures { IfOk result (λ v. v.items ≡ segment_ids segments.now ++ pending_ids pendings.now) }
{
    let mut ids = Vec::new(alloc);
    for row in segments {
        ids.push(Lent { id: &row.id })?;
    }
    for row in pendings {
        ids.push(Lent { id: &row.id })?;
    }
    Ok(ids)
}

// The first segment or pending whose id a later one has. Their rows stand one after another.
fn first_of_two(
    alloc: Global,
    before: u64,
    segments: &[SegmentRow],
    pendings: &[PendingRow],
) -> Result<Option<u64>, OutOfMemory>
    requires { before + (length segments.now + length pendings.now) < 2 ^ 64 }
    ensures { IfOk result (λ row. row ≡ first_clashing before same_id (segment_ids segments.now ++ pending_ids pendings.now)) }
{
    let ids = lent_ids(alloc, segments, pendings)?;
    first_clashing(alloc, before, ids.as_slice(), &BySame { same: IdKey })
}

// ---- keys

/// The number of the next lock, above all others.
#[derive(Drop)]
struct Below {
    next: u64,
}

impl Test<PosseRow> for Below {
    ghost passes = { λ s q. nat_lt q.number s.next };

    fn passes(&self, row: &PosseRow) -> bool {
        row.number < self.next
    }
}

// The least row of a pending whose request a later one has, or of an id that is there twice.
fn request_row(alloc: Global, book: &Book, starts: Starts) -> Result<Option<u64>, OutOfMemory>
    requires { IsCounted book.now starts }
    ensures { IfOk result (λ row. row ≡ request_keys book.now) }
{
    let pendings = book.pendings.as_slice();
    let publications = book.publications.as_slice();
    let before = starts.publications;
    let once = once_row(alloc, starts.pendings, pendings, before, publications)?;
    let asked = first_clashing(alloc, starts.pendings, pendings, &BySame { same: Request })?;
    Ok(lesser(asked, once))
}

// The lesser of a row and the least one of stored offsets, supervisors and sequences.
fn stream_row(
    alloc: Global,
    book: &Book,
    starts: Starts,
    row: Option<u64>,
) -> Result<Option<u64>, OutOfMemory>
    requires { IsCounted book.now starts }
    ensures { IfOk result (λ found. found ≡ stream_keys book.now row) }
{
    let offsets = book.offsets.as_slice();
    let supervisors = book.supervisors.as_slice();
    let sequences = book.sequences.as_slice();
    let by_sequence = BySame { same: SequenceKey };
    let by_source = BySame {
        same: SupervisorKey,
    };
    let sequence = first_clashing(alloc, starts.sequences, sequences, &by_sequence)?;
    let supervisor = first_clashing(alloc, starts.supervisors, supervisors, &by_source)?;
    let offset = first_behind(starts.offsets, offsets, &ByPartition);
    let row = lesser(sequence, row);
    let row = lesser(supervisor, row);
    Ok(lesser(offset, row))
}

// The lesser of a row and the least one of chunks, ids and upgrade rows.
fn id_row(
    alloc: Global,
    book: &Book,
    starts: Starts,
    row: Option<u64>,
) -> Result<Option<u64>, OutOfMemory>
    requires { IsCounted book.now starts }
    ensures { IfOk result (λ found. found ≡ id_keys book.now row) }
{
    let chunks = book.chunks.as_slice();
    let segments = book.segments.as_slice();
    let pendings = book.pendings.as_slice();
    let upgrades = book.upgrades.as_slice();
    let upgrade = first_clashing(
        alloc,
        starts.upgrades,
        upgrades,
        &BySame { same: UpgradeKey },
    )?;
    let id = first_of_two(alloc, starts.segments, segments, pendings)?;
    let chunk = first_clashing(alloc, starts.chunks, chunks, &BySame { same: ChunkKey })?;
    let row = lesser(upgrade, row);
    let row = lesser(id, row);
    Ok(lesser(chunk, row))
}

// The lesser of a row and the least one of locks.
fn lock_row(
    alloc: Global,
    book: &Book,
    starts: Starts,
    row: Option<u64>,
) -> Result<Option<u64>, OutOfMemory>
    requires { IsCounted book.now starts }
    ensures { IfOk result (λ found. found ≡ lock_keys book.now row) }
{
    let posses = book.posses.as_slice();
    let next = book.next_lock;
    let above = first_failing(starts.posses, posses, &Below { next });
    let behind = first_behind(starts.posses, posses, &ByNumber);
    let same = first_clashing(alloc, starts.posses, posses, &BySame { same: LockNumber })?;
    let row = lesser(above, row);
    let row = lesser(behind, row);
    Ok(lesser(same, row))
}

/// The least row whose key another row has, or that isn't in order. The error is want of memory.
pub fn key_row(alloc: Global, book: &Book, starts: Starts) -> Result<Option<u64>, OutOfMemory>
    requires { IsCounted book.now starts }
    ensures { IfOk result (λ row. row ≡ least (key_rows book.now)) }
{
    let asked = request_row(alloc, book, starts)?;
    let streamed = stream_row(alloc, book, starts, asked)?;
    let named = id_row(alloc, book, starts, streamed)?;
    let locked = lock_row(alloc, book, starts, named)?;
    let task = first_clashing(alloc, 0, book.tasks.as_slice(), &BySame { same: TaskKey })?;
    Ok(lesser(task, locked))
}

// ---- versions

/// The last version, which none is above.
#[derive(Drop)]
struct UpTo {
    last: i64,
}

impl Test<PosseRow> for UpTo {
    ghost passes = { λ s q. int_le q.version s.last };

    fn passes(&self, row: &PosseRow) -> bool {
        row.version <= self.last
    }
}

impl Test<ChunkRow> for UpTo {
    ghost passes = { λ s c. int_le c.version s.last };

    fn passes(&self, row: &ChunkRow) -> bool {
        row.version <= self.last
    }
}

// Whether a lock has a version that its kind may have.
fn fits_version(row: &PosseRow) -> bool
    ensures { result ≡ fits_version row.now }
{
    match row.lock_kind {
        LockKind::Append => row.version == 0,
        LockKind::Exclusive | LockKind::Shared | LockKind::Replace => 0 < row.version,
    }
}

/// A version that the lock's kind may have.
#[derive(Drop)]
struct FittingVersion;

impl Test<PosseRow> for FittingVersion {
    ghost passes = { λ s q. fits_version q };

    fn passes(&self, row: &PosseRow) -> bool {
        fits_version(row)
    }
}

fn late_lock(before: u64, last: i64, locks: &[PosseRow]) -> Option<u64>
    requires { before + length locks.now < 2 ^ 64 }
    ensures { result ≡ first_failing before (λ q. int_le q.version last) locks.now }
{
    first_failing(before, locks, &UpTo { last })
}

fn late_chunk(before: u64, last: i64, chunks: &[ChunkRow]) -> Option<u64>
    requires { before + length chunks.now < 2 ^ 64 }
    ensures { result ≡ first_failing before (λ c. int_le c.version last) chunks.now }
{
    first_failing(before, chunks, &UpTo { last })
}

/// The least row whose version is above the last one, one that its kind can't have, or another
/// lock's. The error is want of memory.
pub fn version_row(alloc: Global, book: &Book, starts: Starts) -> Result<Option<u64>, OutOfMemory>
    requires { IsCounted book.now starts }
    ensures { IfOk result (λ row. row ≡ least (version_rows book.now)) }
{
    let posses = book.posses.as_slice();
    let late = late_lock(starts.posses, book.last, posses);
    let chunk = late_chunk(starts.chunks, book.last, book.chunks.as_slice());
    let unfit = first_failing(starts.posses, posses, &FittingVersion);
    let same = first_clashing(alloc, starts.posses, posses, &BySame { same: LockVersion })?;
    let row = lesser(unfit, same);
    let row = lesser(chunk, row);
    Ok(lesser(late, row))
}
