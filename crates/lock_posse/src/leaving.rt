//! Tasks that leave their locks.
ghost use Rattle.std.specs.Prelude.{◌≡◌, IfOk, OnErr, OnOk, map};
ghost use Rattle.book_rows.specs.Locks.{HasDistinctNumbers, after_leave, ends, locks_of};
ghost use Rattle.lock_posse.specs.Leaving.{ended_of, left_rows, numbers_last};

use crate::OutOfMemory;
use crate::changes::Leaving;
use crate::keys::Lock;
use crate::queries::{Ended, Having, HavingAlone};
use row_table::RowTable;
use seg_names::TaskId;
use std::alloc::Global;

/// The task leaves the lock of this number. Answers whether the lock ended with it, and is gone.
pub fn leave_row(rows: &mut RowTable<Lock>, number: u64, task: &TaskId) -> bool
    ensures answer { result ≡ ends number task.now rows.old }
    ensures rows { rows.new ≡ after_leave number task.now rows.old }
{
    rows.change_all(&Leaving { number, task });
    let ended = rows.any(&Ended { number });
    rows.remove_all(&Ended { number });
    ended
}

/// The numbers of the locks, in turn. The error is want of memory.
pub fn numbers_of(alloc: Global, found: &[&Lock]) -> Result<Vec<u64>, OutOfMemory>
    ensures { IfOk result (λ v. v.items ≡ map (λ p. p.number) (map (λ r. r.now) found.now)) }
{
    let mut numbers = Vec::new(alloc);
    for lock in found {
        numbers.push(lock.row.number)?;
    }
    Ok(numbers)
}

/// The numbers of the locks that have the task as a member, in row order. The error is want of
/// memory.
pub fn numbers_having(
    alloc: Global,
    rows: &RowTable<Lock>,
    task: &TaskId,
) -> Result<Vec<u64>, OutOfMemory>
    ensures { IfOk result (λ v. v.items ≡ locks_of task.now rows.now) }
{
    let found = rows.all(alloc, &Having { task })?;
    numbers_of(alloc, found.as_slice())
}

fn last_numbers(
    alloc: Global,
    rows: &RowTable<Lock>,
    task: &TaskId,
) -> Result<Vec<u64>, OutOfMemory>
    ensures { IfOk result (λ v. v.items ≡ numbers_last task.now rows.now) }
{
    let found = rows.all(alloc, &HavingAlone { task })?;
    numbers_of(alloc, found.as_slice())
}

fn leave_each(rows: &mut RowTable<Lock>, numbers: &[u64], task: &TaskId)
    ensures { rows.new ≡ left_rows numbers.now task.now rows.old }
{
    for number in numbers {
        let _ended = leave_row(rows, *number, task);
    }
}

/// Takes the task from all its locks. Answers the numbers of the locks that went.
///
/// Numbers are distinct, so those that will end with the task are known before it leaves one.
pub fn leave_rows(
    alloc: Global,
    rows: &mut RowTable<Lock>,
    task: &TaskId,
) -> Result<Vec<u64>, OutOfMemory>
    requires { HasDistinctNumbers rows.old }
    ensures ended { IfOk result (λ v. v.items ≡ ended_of (locks_of task.now rows.old) task.now rows.old) }
    ensures rows { OnOk result (rows.new ≡ left_rows (locks_of task.now rows.old) task.now rows.old) }
    ensures err { OnErr result (rows.new ≡ rows.old) }
{
    let ended = last_numbers(alloc, rows, task)?;
    let numbers = numbers_having(alloc, rows, task)?;
    leave_each(rows, numbers.as_slice(), task);
    Ok(ended)
}
