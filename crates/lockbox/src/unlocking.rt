//! What was granted, done, and locks that are left.
ghost use Rattle.std.specs.Prelude.{◌≡◌, IfOk, IsTrue, OnErr, OnOk};
ghost use Rattle.book_rows.specs.Grant.{posses_after};
ghost use Rattle.book_rows.specs.Locks.{after_leave, ends, is_member_of, locks_of, posse_of};
ghost use Rattle.lock_posse.specs.Leaving.{ended_of, left_rows};
ghost use Rattle.lockbox.specs.Decided.{WasDecided};

use crate::OutOfMemory;
use book_rows::Granted;
use lock_posse::Posses;
use seg_names::TaskId;
use std::alloc::Global;

/// Does what `decide` granted to the task on these locks. The error is want of memory.
pub fn apply(
    alloc: Global,
    posses: &mut Posses,
    granted: &Granted,
    task: &TaskId,
) -> Result<(), OutOfMemory>
    requires { WasDecided posses.old granted.now task.now }
    ensures ok { OnOk result (posses.new ≡ posses_after posses.old task.now granted.now) }
    ensures err { OnErr result (posses.new ≡ posses.old) }
{
    posses.change(alloc, granted, task)
}

/// The task leaves a lock of which it is a member. Answers whether the lock ended, and is gone.
pub fn release(posses: &mut Posses, lock: u64, task: &TaskId) -> bool
    requires { IsTrue (is_member_of (posse_of lock posses.old) task.now) }
    ensures answer { result ≡ ends lock task.now posses.old }
    ensures rows { posses.new ≡ after_leave lock task.now posses.old }
{
    posses.leave(lock, task)
}

/// The task leaves all its locks. Answers the numbers of those that ended, and are gone. The error
/// is want of memory.
pub fn release_all(
    alloc: Global,
    posses: &mut Posses,
    task: &TaskId,
) -> Result<Vec<u64>, OutOfMemory>
    ensures ended { IfOk result (λ v. v.items ≡ ended_of (locks_of task.now posses.old) task.now posses.old) }
    ensures rows { OnOk result (posses.new ≡ left_rows (locks_of task.now posses.old) task.now posses.old) }
    ensures err { OnErr result (posses.new ≡ posses.old) }
{
    posses.leave_all(alloc, task)
}
