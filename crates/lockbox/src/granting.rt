//! One request, decided on the locks as they are after what was granted so far.
ghost use Rattle.std.specs.Prelude.{◌≡◌, ◌+◌, ◌<◌, ◌^◌, [], ◌∷◌, IfOk};
ghost use Rattle.book_rows.specs.Grant.{grant, grant_lock, last_after, makes_row, new_row, posses_after, version_for};
ghost use Rattle.lockbox.specs.Decided.{AreCounters, IsAnswer};
ghost use Rattle.lockbox.specs.Searches.{joins_found};

use crate::OutOfMemory;
use crate::fault::LockFault;
use crate::kinds::same_kind;
use crate::searches::{Found, Wanted, least_found, numbers_against};
use book_rows::{Counters, Granted, GrantedLock, Items, LockKind, PosseRow, TaskRow, Want};
use iv_time::LAST_INSTANT;
use lock_posse::Posses;
use seg_names::TaskId;
use std::alloc::Global;

fn version_for(kind: LockKind, counters: Counters) -> Option<i64>
    requires { AreCounters counters }
    ensures { result ≡ version_for kind counters }
{
    if same_kind(kind, LockKind::Append) {
        return Some(0);
    }
    if counters.last == LAST_INSTANT {
        return None;
    }
    Some(counters.clock.max(counters.last + 1))
}

fn one<T: Drop>(alloc: Global, item: T) -> Result<Items<T>, OutOfMemory>
    ensures { IfOk result (λ items. items ≡ item ∷ []) }
{
    let mut items = Items::new(alloc);
    items.push(item)?;
    Ok(items)
}

// The task joins a lock that was found.
fn joins_found(alloc: Global, counters: Counters, found: Found) -> Result<GrantedLock, OutOfMemory>
    ensures { IfOk result (λ lock. lock ≡ joins_found counters found) }
{
    let joins = if found.member {
        Items::new(alloc)
    } else {
        one(alloc, found.number)?
    };
    let locks = one(alloc, found.number)?;
    Ok(GrantedLock {
        number: found.number,
        span: found.span,
        version: found.version,
        granted: Granted {
            locks,
            joins,
            rows: Items::new(alloc),
            revoked: Items::new(alloc),
            after: counters,
        },
    })
}

fn one_member(alloc: Global, task: &TaskId) -> Result<Items<TaskId>, OutOfMemory>
    ensures { IfOk result (λ members. members ≡ task.now ∷ []) }
{
    let member = task.twin(alloc)?;
    one(alloc, member)
}

fn new_row(
    alloc: Global,
    counters: Counters,
    task: &TaskRow,
    want: &Want,
    version: i64,
) -> Result<PosseRow, OutOfMemory>
    ensures { IfOk result (λ row. row ≡ new_row counters task.now want.now version) }
{
    let group = task.group.twin(alloc)?;
    let source = task.source.twin(alloc)?;
    let members = one_member(alloc, &task.task)?;
    Ok(PosseRow {
        number: counters.next_lock,
        lock_kind: want.lock_kind,
        group,
        source,
        span: want.span,
        version,
        priority: task.priority,
        members,
        revoked: false,
        since: counters.since,
    })
}

fn one_row(
    alloc: Global,
    counters: Counters,
    task: &TaskRow,
    want: &Want,
    version: i64,
) -> Result<Items<PosseRow>, OutOfMemory>
    ensures { IfOk result (λ rows. rows ≡ new_row counters task.now want.now version ∷ []) }
{
    let row = new_row(alloc, counters, task, want, version)?;
    one(alloc, row)
}

fn counters_after(counters: Counters, kind: LockKind, version: i64) -> Counters
    requires { counters.next_lock + 1 < 2 ^ 64 }
    ensures { result ≡ record counters { last = last_after kind counters version; next_lock = counters.next_lock + 1 } }
{
    let last = if same_kind(kind, LockKind::Append) {
        counters.last
    } else {
        version
    };
    Counters {
        clock: counters.clock,
        last,
        next_lock: counters.next_lock + 1,
        since: counters.since,
    }
}

fn makes_row(
    alloc: Global,
    posses: &Posses,
    so_far: &Granted,
    task: &TaskRow,
    want: &Want,
    version: i64,
) -> Result<Granted, OutOfMemory>
    requires { so_far.now.after.next_lock + 1 < 2 ^ 64 }
    ensures { IfOk result (λ g. g ≡ makes_row (posses_after posses.now task.now.task so_far.now) so_far.now.after task.now want.now version) }
{
    // The row comes last, so that no way out has to give it back.
    let locks = one(alloc, so_far.after.next_lock)?;
    let revoked = Items::from_vec(numbers_against(alloc, posses, so_far, task, want)?);
    let rows = one_row(alloc, so_far.after, task, want, version)?;
    Ok(Granted {
        locks,
        joins: Items::new(alloc),
        rows,
        revoked,
        after: counters_after(so_far.after, want.lock_kind, version),
    })
}

/// Decides one request, and tells the lock that is granted. The errors are those of `decide`, but
/// for the room.
pub fn grant_lock(
    alloc: Global,
    posses: &Posses,
    so_far: &Granted,
    task: &TaskRow,
    want: &Want,
) -> Result<GrantedLock, LockFault>
    requires counters { AreCounters so_far.now.after }
    requires numbers { so_far.now.after.next_lock + 1 < 2 ^ 64 }
    ensures { IsAnswer result (grant_lock (posses_after posses.now task.now.task so_far.now) so_far.now.after task.now want.now) }
{
    if let Some(lost) = least_found(posses, so_far, task, want, Wanted::Lost) {
        return Err(LockFault::Revoked(lost.number));
    }
    if let Some(fit) = least_found(posses, so_far, task, want, Wanted::Fit) {
        return Ok(joins_found(alloc, so_far.after, fit)?);
    }
    if let Some(block) = least_found(posses, so_far, task, want, Wanted::Block) {
        return Err(LockFault::Conflict(block.number));
    }
    let Some(version) = version_for(want.lock_kind, so_far.after) else {
        return Err(LockFault::ClockEnd);
    };
    let granted = makes_row(alloc, posses, so_far, task, want, version)?;
    Ok(GrantedLock {
        number: so_far.after.next_lock,
        span: want.span,
        version,
        granted,
    })
}

/// The same, without the lock.
pub fn grant(
    alloc: Global,
    posses: &Posses,
    so_far: &Granted,
    task: &TaskRow,
    want: &Want,
) -> Result<Granted, LockFault>
    requires counters { AreCounters so_far.now.after }
    requires numbers { so_far.now.after.next_lock + 1 < 2 ^ 64 }
    ensures { IsAnswer result (grant (posses_after posses.now task.now.task so_far.now) so_far.now.after task.now want.now) }
{
    match grant_lock(alloc, posses, so_far, task, want) {
        Ok(lock) => Ok(lock.granted),
        Err(fault) => Err(fault),
    }
}
