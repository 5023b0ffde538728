//! Ids that were allocated and still wait to be published.
ghost use Rattle.std.specs.Prelude.{◌≡◌, ◌&&◌, Some};
ghost use Rattle.std.specs.Option.{option_copied, option_map};
ghost use Rattle.iv_span.specs.Extent.{has};
ghost use Rattle.book_rows.specs.Allocation.{fits_request, known_fault, known_pending};
ghost use Rattle.book_rows.specs.Locks.{is_lost, least, posse_of};
ghost use Rattle.seg_alloc.specs.Answers.{IsKnown, known_answer, known_unless};

use crate::faults::KnownFault;
use book_rows::{Clear, LockKind, PendingRow, PosseRow, TaskRow};
use iv_span::Span;
use lock_posse::Posses;
use seg_names::{Name, SegId};
use std::alloc::Global;
use tab_pending::Pendings;

fn is_of_request(lock: &PosseRow, task: &TaskRow, kind: LockKind) -> bool
    ensures { result ≡ fits_request task.now kind (Some lock.now) }
{
    lock.lock_kind == kind && lock.group == task.group && lock.priority == task.priority
}

fn fits_request(posses: &Posses, lock: u64, task: &TaskRow, kind: LockKind) -> bool
    ensures { result ≡ fits_request task.now kind (posse_of lock posses.now) }
{
    match posses.get(lock) {
        Some(row) => is_of_request(row, task, kind),
        None => false,
    }
}

// Whether the pending has the instant, and its lock is of the type and of the task's group and
// priority.
fn is_as_asked(
    posses: &Posses,
    task: &TaskRow,
    kind: LockKind,
    at: i64,
    pending: &PendingRow,
) -> bool
    ensures { result ≡ (has pending.now.id.span at && fits_request task.now kind (posse_of pending.now.posse posses.now)) }
{
    pending.id.span.has(at) && fits_request(posses, pending.posse, task, kind)
}

// The least lock that the task lost over the span.
fn lost_over(posses: &Posses, task: &TaskRow, span: Span, kind: LockKind) -> Option<u64>
    ensures { result ≡ option_map (λ q. q.number) (least (is_lost task.now.task task.now.source span) posses.now) }
{
    match posses.clear(&task.task, &task.source, span, kind) {
        Clear::Revoked(number) => Some(number),
        Clear::Held(_) | Clear::Missing => None,
    }
}

fn known_as(
    alloc: Global,
    posses: &Posses,
    task: &TaskRow,
    kind: LockKind,
    at: i64,
    pending: &PendingRow,
) -> Result<Option<(SegId, u64)>, KnownFault>
    ensures { IsKnown result (known_unless (known_fault posses.now task.now kind at pending.now) pending.now) }
{
    let id = pending.id.twin(alloc)?;
    if !is_as_asked(posses, task, kind, at, pending) {
        return Err(KnownFault::Mismatch(id));
    }
    match lost_over(posses, task, pending.id.span, kind) {
        Some(lost) => Err(KnownFault::Revoked(lost)),
        None => Ok(Some((id, pending.posse))),
    }
}

/// The id that was allocated for the task's source, the sequence and the previous id, and the number
/// of its lock; none where no such id waits. `Mismatch` where the id was asked for otherwise, else
/// `Revoked` where the task lost a lock over its span. The task may not be a member of the lock yet.
pub fn known(
    alloc: Global,
    pendings: &Pendings,
    posses: &Posses,
    task: &TaskRow,
    kind: LockKind,
    sequence: &Name,
    previous: Option<&SegId>,
    at: i64,
) -> Result<Option<(SegId, u64)>, KnownFault>
    ensures { IsKnown result (known_answer (known_pending pendings.now.pendings task.now.source sequence.now (option_copied previous.entry)) posses.now task.now kind at) }
{
    match pendings.by_sequence(&task.source, sequence, previous) {
        Some(pending) => known_as(alloc, posses, task, kind, at, pending),
        None => Ok(None),
    }
}
