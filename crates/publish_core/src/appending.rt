//! The check of `append`.
ghost use Rattle.std.specs.Prelude.{◌≡◌};
ghost use Rattle.std.specs.Option.{ForSome};
ghost use Rattle.book_rows.specs.Append.{append_fault, is_allocated};
ghost use Rattle.book_rows.specs.Locks.{is_member_of, posse_of};
ghost use Rattle.publish_core.specs.Answers.{IsPassed};
ghost use Rattle.publish_core.specs.Memberships.{IsTold};

use crate::faults::PublishFault;
use crate::memberships::Membership;
use book_rows::{PendingRow, TaskRow};
use lock_posse::Posses;
use seg_names::{SegId, TaskId};
use std::alloc::Global;
use tab_pending::{PendingTest, Pendings};

// Whether the task is a member of the lock of this number.
fn is_member(posses: &Posses, task: &TaskId, told: Option<Membership>, lock: u64) -> bool
    requires { ForSome told (IsTold posses.now task.now) }
    ensures { result ≡ is_member_of (posse_of lock posses.now) task.now }
{
    match told {
        Some(last) if last.lock == lock => last.is_member,
        _ => posses.member_of(lock, task),
    }
}

/// The pendings of locks of which a task is a member. One lock's answer is told.
#[derive(Drop)]
struct UnderOwnLock<'a> {
    posses: &'a Posses,
    task: &'a TaskId,
    told: Option<Membership>,
    ghost right: { ForSome told (IsTold posses.now task.now) },
}

impl PendingTest for UnderOwnLock<'_> {
    ghost passes = { λ q p. is_member_of (posse_of p.posse q.posses.now) q.task.now };

    fn passes(&self, row: &PendingRow) -> bool {
        is_member(self.posses, self.task, self.told, row.posse)
    }
}

// Whether the id waits as a root under a lock of the task.
fn is_allocated(
    pendings: &Pendings,
    posses: &Posses,
    task: &TaskId,
    told: Option<Membership>,
    id: &SegId,
) -> bool
    requires { ForSome told (IsTold posses.now task.now) }
    ensures { result ≡ is_allocated posses.now pendings.now.pendings task.now id.now }
{
    let own = UnderOwnLock { posses, task, told };
    pendings.any_root(id, &own)
}

// The answer for the lock of the id: ids of a command mostly wait under one lock, which may have
// many members.
fn told_next(
    pendings: &Pendings,
    posses: &Posses,
    task: &TaskId,
    told: Option<Membership>,
    id: &SegId,
) -> Option<Membership>
    requires { ForSome told (IsTold posses.now task.now) }
    ensures { ForSome result (IsTold posses.now task.now) }
{
    let pending = pendings.root(id)?;
    let lock = pending.posse;
    Some(Membership {
        lock,
        is_member: is_member(posses, task, told, lock),
    })
}

/// Whether the task may append the ids: each waits as a root under a lock of which the task is a
/// member. `NotAllocated` tells the first that doesn't.
pub fn check_append(
    alloc: Global,
    pendings: &Pendings,
    posses: &Posses,
    task: &TaskRow,
    ids: &[SegId],
) -> Result<(), PublishFault>
    ensures { IsPassed result (append_fault posses.now pendings.now.pendings task.now.task ids.now) }
{
    let mut told = None;
    for id in ids {
        told = told_next(pendings, posses, &task.task, told, id);
        if !is_allocated(pendings, posses, &task.task, told, id) {
            return Err(PublishFault::NotAllocated(id.twin(alloc)?));
        }
    }
    Ok(())
}
