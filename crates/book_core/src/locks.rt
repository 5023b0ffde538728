//! `lock` and `unlock`.
ghost use Rattle.std.specs.Prelude.{◌≡◌, IfOk, IsTrue, OnOk, true};
ghost use Rattle.iv_time.specs.Range.{is_instant};
ghost use Rattle.book_rows.specs.Grant.{book_granted, counters_at};
ghost use Rattle.book_rows.specs.LockSteps.{lock_reply, locked, unlocked};
ghost use Rattle.book_rows.specs.Locks.{is_member_of, left_lock, posse_of};
ghost use Rattle.book_rows.specs.Outcome.{running, task_of};
ghost use Rattle.laws_locks.specs.LockShape.{HasSoundLocks};
ghost use Rattle.lockbox.specs.Decided.{IsAnswer, WasDecided, decided, decided_lock};
ghost use Rattle.book_core.specs.Decisions.{granted_outcome};
ghost use Rattle.book_core.specs.Done.{IsDone};

use crate::OutOfMemory;
use crate::outcomes::{Outcome, changed, lock_refusal, refused, repeated};
use crate::tables::Core;
use book_rows::{Granted, GrantedLock, LockKind, Refusal, Reply, TaskRow, TaskStatus, Want};
use iv_span::Span;
use lockbox::{LockFault, apply, decide, decide_lock, release};
use seg_names::TaskId;
use std::alloc::Global;

// The reply names the lock's own span.
fn lock_reply(lock: GrantedLock) -> Reply
    ensures { result ≡ lock_reply lock }
{
    let GrantedLock {
        number,
        span,
        version,
        granted,
    } = lock;
    Reply::Lock {
        lock: number,
        revoked: granted.revoked,
        span,
        version,
    }
}

impl Core {
    /// Decides the requests of a task for these locks.
    pub fn decided(
        &self,
        alloc: Global,
        row: &TaskRow,
        wants: &[Want],
        now: i64,
    ) -> Result<Granted, LockFault>
        requires sound { HasSoundLocks self.now }
        requires instant { is_instant now ≡ true }
        ensures { IsAnswer result (decided self.now.posses (counters_at self.now now) row.now wants.now) }
    {
        decide(alloc, &self.posses, self.counters_at(now), row, wants)
    }

    /// Does what was granted to a task. What the revoked locks held goes with it.
    pub fn book_granted(
        &mut self,
        alloc: Global,
        granted: &Granted,
        task: &TaskId,
    ) -> Result<(), OutOfMemory>
        requires { WasDecided self.old.posses granted.now task.now }
        ensures { OnOk result (self.new ≡ book_granted self.old task.now granted.now) }
    {
        apply(alloc, &mut self.posses, granted, task)?;
        self.pendings.take_posses(granted.revoked.as_slice());
        self.clock = granted.after.clock;
        self.last = granted.after.last;
        self.next_lock = granted.after.next_lock;
        Ok(())
    }

    /// Decides the request of a task for this lock.
    pub fn decided_lock(
        &self,
        alloc: Global,
        row: &TaskRow,
        want: &Want,
        now: i64,
    ) -> Result<GrantedLock, LockFault>
        requires sound { HasSoundLocks self.now }
        requires instant { is_instant now ≡ true }
        ensures { IsAnswer result (decided_lock self.now.posses (counters_at self.now now) row.now want.now) }
    {
        decide_lock(alloc, &self.posses, self.counters_at(now), row, want)
    }

    fn locked_with(
        &mut self,
        alloc: Global,
        lock: GrantedLock,
        task: &TaskId,
    ) -> Result<Outcome, OutOfMemory>
        requires { WasDecided self.old.posses lock.granted task.now }
        ensures { IfOk result (λ o. IsDone o self.new (granted_outcome self.old task.now lock)) }
    {
        match self.book_granted(alloc, &lock.granted, task) {
            Ok(()) => Ok(changed(lock_reply(lock))),
            Err(error) => {
                drop(lock);
                Err(error)
            }
        }
    }

    /// Asks for a lock.
    pub fn lock(
        &mut self,
        alloc: Global,
        task: &TaskId,
        lock_kind: LockKind,
        span: Span,
        now: i64,
    ) -> Result<Outcome, OutOfMemory>
        requires sound { HasSoundLocks self.old }
        requires instant { is_instant now ≡ true }
        ensures { IfOk result (λ o. IsDone o self.new (running (task_of task.now self.old.tasks) self.old (locked self.old (record { lock_kind = lock_kind; span = span }) now))) }
    {
        let Some(row) = self.task(task) else {
            return Ok(refused(Refusal::TaskUnknown));
        };
        if row.status != TaskStatus::Running {
            return Ok(refused(Refusal::TaskNotRunning { status: row.status }));
        }
        let want = Want { lock_kind, span };
        match self.decided_lock(alloc, row, &want, now) {
            Ok(lock) => self.locked_with(alloc, lock, task),
            Err(fault) => Ok(refused(lock_refusal(fault)?)),
        }
    }

    /// Whether there is a lock of this number with the task as a member.
    pub fn has_member(&self, lock: u64, task: &TaskId) -> bool
        ensures { result ≡ is_member_of (posse_of lock self.now.posses) task.now }
    {
        self.posses.member_of(lock, task)
    }

    // What the lock held goes where it ends.
    fn left_lock(&mut self, lock: u64, task: &TaskId)
        requires { IsTrue (is_member_of (posse_of lock self.old.posses) task.now) }
        ensures { self.new ≡ left_lock lock task.now self.old }
    {
        let ended = release(&mut self.posses, lock, task);
        self.pendings.take_ended(lock, ended);
    }

    /// Leaves a lock, where the task is a member.
    pub fn unlocked(&mut self, task: &TaskId, lock: u64) -> Outcome
        ensures { IsDone result self.new (unlocked (task_of task.now self.old.tasks) self.old task.now lock) }
    {
        if !self.has_task(task) {
            return refused(Refusal::TaskUnknown);
        }
        if !self.has_member(lock, task) {
            return repeated(Reply::Unlock { left: false });
        }
        self.left_lock(lock, task);
        changed(Reply::Unlock { left: true })
    }
}
