//! Members of locks, which are running tasks.
ghost use Rattle.std.specs.Prelude.{◌+◌, ◌<◌, ◌^◌, ◌∷◌, ◌≡◌, [], IfOk, bytes_eq, fold, length};
ghost use Rattle.std.specs.List.{list_all, list_any};
ghost use Rattle.book_rows.specs.Kinds.{same_status};
ghost use Rattle.book_rows.specs.declared.kinds.TaskStatus.TheVariants.{Running};
ghost use Rattle.row_index.specs.Digests.{mix};
ghost use Rattle.row_index.specs.Index.{digest_key, digest_range};
ghost use Rattle.laws_unsound.specs.Rows.{first_failing};
ghost use Rattle.laws_unsound.specs.ShapeRows.{has_members, is_member_task, no_clash};
ghost use Rattle.row_search.specs.Digests.{id_of_task_agrees, member_reaches, task_digest};

use book_rows::{PosseRow, TaskRow, TaskStatus};
use row_index::{digest_key, digest_range, mix_bytes};
use row_search::OutOfMemory;
use row_search::clashes::first_clashing;
use row_search::index::{Keying, Rows, Seeking, index};
use row_search::same::{BySame, Same};
use seg_names::TaskId;
use std::alloc::Global;

/// The task that is to be a member of a lock.
#[derive(Drop)]
pub struct MemberOf<'a> {
    pub lock: &'a PosseRow,
    pub task: &'a TaskId,
}

/// Tasks stand under their id.
#[derive(Drop)]
pub struct ByTask;

impl Keying<TaskRow> for ByTask {
    ghost key = { λ t. digest_key (task_digest t) };

    fn key(&self, row: &TaskRow) -> (u64, i64) {
        digest_key(mix_bytes(1, row.task.bytes()))
    }
}

fn is_running(status: TaskStatus) -> bool
    ensures { result ≡ same_status status Running }
{
    matches!(status, TaskStatus::Running)
}

fn is_member_task(lock: &PosseRow, task: &TaskId, row: &TaskRow) -> bool
    ensures { result ≡ is_member_task lock.now task.now row.now }
{
    row.task == *task
        && (is_running(row.status)
            && (row.group == lock.group
                && (row.source == lock.source && (row.priority == lock.priority))))
}

impl Seeking<MemberOf<'_>, TaskRow> for ByTask {
    ghost holds = { λ s x t. is_member_task x.lock.now x.task.now t };

    ghost ranges = { λ x. digest_range (fold mix 1 x.task.now) ∷ [] };

    ghost reaches = { λ s x t on. member_reaches x.lock.now x.task.now t on };

    fn holds(&self, asked: &MemberOf<'_>, row: &TaskRow) -> bool {
        is_member_task(asked.lock, asked.task, row)
    }

    fn range_count(&self, _asked: &MemberOf<'_>) -> usize {
        1
    }

    fn range(&self, asked: &MemberOf<'_>, _at: usize) -> ((u64, i64), i64) {
        digest_range(mix_bytes(1, asked.task.bytes()))
    }
}

fn has_task(tasks: &Rows<'_, TaskRow, ByTask>, lock: &PosseRow, task: &TaskId) -> bool
    ensures { result ≡ list_any (is_member_task lock.now task.now) tasks.now }
{
    tasks.any(&ByTask, &MemberOf { lock, task })
}

fn have_tasks(tasks: &Rows<'_, TaskRow, ByTask>, lock: &PosseRow, members: &[TaskId]) -> bool
    ensures { result ≡ list_all (λ task. list_any (is_member_task lock.now task) tasks.now) members.now }
{
    members.iter().all(|task| has_task(tasks, lock, task))
}

/// The id of a member.
#[derive(Drop)]
pub struct MemberKey;

impl Same<TaskId> for MemberKey {
    ghost same = { bytes_eq };

    ghost digest = { λ task. fold mix 1 task };

    ghost agrees = { id_of_task_agrees };

    fn same(&self, row: &TaskId, other: &TaskId) -> bool {
        *row == *other
    }

    fn digest(&self, row: &TaskId) -> u64 {
        mix_bytes(1, row.bytes())
    }
}

/// Whether no id is there twice. The error is want of memory.
pub fn are_distinct(alloc: Global, tasks: &[TaskId]) -> Result<bool, OutOfMemory>
    ensures { IfOk result (λ distinct. distinct ≡ no_clash bytes_eq tasks.now) }
{
    let again = first_clashing(alloc, 0, tasks, &BySame { same: MemberKey })?;
    Ok(again.is_none())
}

fn has_members(
    alloc: Global,
    tasks: &Rows<'_, TaskRow, ByTask>,
    lock: &PosseRow,
) -> Result<bool, OutOfMemory>
    ensures { IfOk result (λ has. has ≡ has_members tasks.now lock.now) }
{
    let members = lock.members.as_slice();
    let distinct = are_distinct(alloc, members)?;
    Ok(!members.is_empty() && (distinct && have_tasks(tasks, lock, members)))
}

// The first lock whose members aren't running tasks of its own.
fn first_without(
    alloc: Global,
    before: u64,
    tasks: &Rows<'_, TaskRow, ByTask>,
    locks: &[PosseRow],
) -> Result<Option<u64>, OutOfMemory>
    requires { before + length locks.now < 2 ^ 64 }
    ensures { IfOk result (λ row. row ≡ first_failing before (has_members tasks.now) locks.now) }
{
    let mut row = before;
    for lock in locks {
        if !has_members(alloc, tasks, lock)? {
            return Ok(Some(row));
        }
        row += 1;
    }
    Ok(None)
}

/// The first lock whose members aren't running tasks of its own. The error is want of memory.
pub fn member_row(
    alloc: Global,
    before: u64,
    tasks: &[TaskRow],
    locks: &[PosseRow],
) -> Result<Option<u64>, OutOfMemory>
    requires { before + length locks.now < 2 ^ 64 }
    ensures { IfOk result (λ row. row ≡ first_failing before (has_members tasks.now) locks.now) }
{
    let tasks = index(alloc, tasks, &ByTask)?;
    first_without(alloc, before, &tasks, locks)
}
