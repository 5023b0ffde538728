//! What no two rows of a table may have in common.
ghost use Rattle.std.specs.Prelude.{◌&&◌, ◌==◌, ◌≡◌, bytes_eq, not};
ghost use Rattle.seg_names.specs.Ids.{same_extent, same_id};
ghost use Rattle.book_rows.specs.Allocation.{is_root};
ghost use Rattle.book_rows.specs.Ids.{same_previous};
ghost use Rattle.book_rows.specs.Locks.{same_number};
ghost use Rattle.book_rows.specs.Shape.{is_append, same_chunk_row, same_request, same_sequence, same_supervisor, same_task, same_upgrade, same_version};
ghost use Rattle.laws_unsound.specs.ShapeRows.{ask_alike};
ghost use Rattle.row_search.specs.Digests.{chunk_agrees, chunk_digest, id_agrees, id_digest, mix_chunk, mix_id, mix_previous, mix_span, number_agrees, number_digest, request_agrees, request_digest, sequence_agrees, sequence_digest, supervisor_agrees, supervisor_digest, task_agrees, task_digest, upgrade_agrees, upgrade_digest, version_agrees, version_digest};

use crate::same::Same;
use book_rows::{
    ChunkRow, LockKind, PendingRow, PosseRow, SequenceRow, SupervisorRow, TaskRow, UpgradeRow,
};
use iv_span::Span;
use row_index::{mix, mix_bytes};
use seg_names::{Name, SegId};

// ---- digests

fn mix_span(digest: u64, span: Span) -> u64
    ensures { result ≡ mix_span digest span }
{
    mix(
        mix(digest, span.start().unsigned_abs()),
        span.end().unsigned_abs(),
    )
}

/// A chunk's source, span and version, mixed into a digest.
pub fn mix_chunk(digest: u64, source: &Name, span: Span, version: i64) -> u64
    ensures { result ≡ mix_chunk digest source.now span version }
{
    let named = mix_bytes(digest, source.bytes());
    mix(mix_span(named, span), version.unsigned_abs())
}

/// An id, mixed into a digest.
pub fn mix_id(digest: u64, id: &SegId) -> u64
    ensures { result ≡ mix_id digest id.now }
{
    mix(
        mix_chunk(digest, &id.source, id.span, id.version),
        u64::from(id.part),
    )
}

fn mix_previous(digest: u64, previous: &Option<SegId>) -> u64
    ensures { result ≡ mix_previous digest previous.now }
{
    match previous {
        Some(id) => mix_id(digest, id),
        None => digest,
    }
}

// ---- what is the same

/// Whether the spans have the same ends.
pub fn same_span(left: Span, right: Span) -> bool
    ensures { result ≡ same_extent left right }
{
    left.start() == right.start() && left.end() == right.end()
}

/// Whether they are one id.
pub fn same_id(left: &SegId, right: &SegId) -> bool
    ensures { result ≡ same_id left.now right.now }
{
    left.source == right.source
        && same_span(left.span, right.span)
        && left.version == right.version
        && left.part == right.part
}

/// Whether there is no id on either side, or one id on both.
pub fn same_previous(left: &Option<SegId>, right: &Option<SegId>) -> bool
    ensures { result ≡ same_previous left.now right.now }
{
    match (left, right) {
        (Some(left), Some(right)) => same_id(left, right),
        (None, None) => true,
        _ => false,
    }
}

fn is_append(kind: LockKind) -> bool
    ensures { result ≡ is_append kind }
{
    matches!(kind, LockKind::Append)
}

/// Whether the pending is a root.
pub fn is_root(pending: &PendingRow) -> bool
    ensures { result ≡ is_root pending.now }
{
    same_id(&pending.id, &pending.root)
}

fn same_request(row: &PendingRow, other: &PendingRow) -> bool
    ensures { result ≡ same_request row.now other.now }
{
    row.id.source == other.id.source
        && row.sequence == other.sequence
        && same_previous(&row.previous, &other.previous)
}

// ---- the keys of each table

/// The id of a task.
#[derive(Drop)]
pub struct TaskKey;

impl Same<TaskRow> for TaskKey {
    ghost same = { same_task };

    ghost digest = { task_digest };

    ghost agrees = { task_agrees };

    fn same(&self, row: &TaskRow, other: &TaskRow) -> bool {
        row.task == other.task
    }

    fn digest(&self, row: &TaskRow) -> u64 {
        mix_bytes(1, row.task.bytes())
    }
}

/// The number of a lock.
#[derive(Drop)]
pub struct LockNumber;

impl Same<PosseRow> for LockNumber {
    ghost same = { same_number };

    ghost digest = { number_digest };

    ghost agrees = { number_agrees };

    fn same(&self, row: &PosseRow, other: &PosseRow) -> bool {
        row.number == other.number
    }

    fn digest(&self, row: &PosseRow) -> u64 {
        mix(2, row.number)
    }
}

/// The version of a lock that doesn't append.
#[derive(Drop)]
pub struct LockVersion;

impl Same<PosseRow> for LockVersion {
    ghost same = { same_version };

    ghost digest = { version_digest };

    ghost agrees = { version_agrees };

    fn same(&self, row: &PosseRow, other: &PosseRow) -> bool {
        !is_append(row.lock_kind) && !is_append(other.lock_kind) && row.version == other.version
    }

    fn digest(&self, row: &PosseRow) -> u64 {
        mix(3, row.version.unsigned_abs())
    }
}

/// The source, span and version of a chunk.
#[derive(Drop)]
pub struct ChunkKey;

impl Same<ChunkRow> for ChunkKey {
    ghost same = { same_chunk_row };

    ghost digest = { chunk_digest };

    ghost agrees = { chunk_agrees };

    fn same(&self, row: &ChunkRow, other: &ChunkRow) -> bool {
        row.source == other.source
            && same_span(row.span, other.span)
            && row.version == other.version
    }

    fn digest(&self, row: &ChunkRow) -> u64 {
        mix_chunk(4, &row.source, row.span, row.version)
    }
}

/// The lock and the root of an upgrade row.
#[derive(Drop)]
pub struct UpgradeKey;

impl Same<UpgradeRow> for UpgradeKey {
    ghost same = { same_upgrade };

    ghost digest = { upgrade_digest };

    ghost agrees = { upgrade_agrees };

    fn same(&self, row: &UpgradeRow, other: &UpgradeRow) -> bool {
        row.posse == other.posse && same_id(&row.root, &other.root)
    }

    fn digest(&self, row: &UpgradeRow) -> u64 {
        mix_id(mix(6, row.posse), &row.root)
    }
}

/// The source of a supervisor.
#[derive(Drop)]
pub struct SupervisorKey;

impl Same<SupervisorRow> for SupervisorKey {
    ghost same = { same_supervisor };

    ghost digest = { supervisor_digest };

    ghost agrees = { supervisor_agrees };

    fn same(&self, row: &SupervisorRow, other: &SupervisorRow) -> bool {
        row.source == other.source
    }

    fn digest(&self, row: &SupervisorRow) -> u64 {
        mix_bytes(7, row.source.bytes())
    }
}

/// The source, group and index of a sequence.
#[derive(Drop)]
pub struct SequenceKey;

impl Same<SequenceRow> for SequenceKey {
    ghost same = { same_sequence };

    ghost digest = { sequence_digest };

    ghost agrees = { sequence_agrees };

    fn same(&self, row: &SequenceRow, other: &SequenceRow) -> bool {
        other.source == row.source && other.group == row.group && row.index == other.index
    }

    fn digest(&self, row: &SequenceRow) -> u64 {
        let named = mix_bytes(8, row.source.bytes());
        mix(mix(named, u64::from(row.group)), u64::from(row.index))
    }
}

/// What a root pending was asked for with: its source, its sequence and the id before it.
#[derive(Drop)]
pub struct Request;

impl Same<PendingRow> for Request {
    ghost same = { ask_alike };

    ghost digest = { request_digest };

    ghost agrees = { request_agrees };

    fn same(&self, row: &PendingRow, other: &PendingRow) -> bool {
        is_root(row) && (is_root(other) && same_request(row, other))
    }

    fn digest(&self, row: &PendingRow) -> u64 {
        let named = mix_bytes(9, row.id.source.bytes());
        mix_previous(mix_bytes(named, row.sequence.bytes()), &row.previous)
    }
}
