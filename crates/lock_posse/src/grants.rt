//! What was granted to a task, done to rows that are in no table yet.
ghost use Rattle.std.specs.Prelude.{◌≡◌, ◌≤◌, [], ◌∷◌, ◌++◌, ◌==◌, IfOk, OnErr, OnOk, drop, filter, length, map, slice_get, unwrap_or};
ghost use Rattle.book_rows.specs.Grant.{posses_after, revoked_in};
ghost use Rattle.lock_posse.specs.Granting.{GrantsFirst, GrantsFront, member_lists, members_in};

use crate::OutOfMemory;
use crate::searches::is_listed;
use book_rows::{Granted, Items, PosseRow, Twin};
use seg_names::TaskId;
use std::alloc::Global;
use std::collections::VecDeque;

// Adds the task once for each time that the number is listed.
fn join_times(
    alloc: Global,
    members: &mut Items<TaskId>,
    task: &TaskId,
    numbers: &[u64],
    number: u64,
) -> Result<(), OutOfMemory>
    ensures { OnOk result (members.new ≡ members.old ++ map (λ n. task.now) (filter (λ n. n == number) numbers.now)) }
{
    for listed in numbers {
        if *listed == number {
            members.push(task.twin(alloc)?)?;
        }
    }
    Ok(())
}

/// The members of the lock after the task joins those of these numbers. The error is want of memory.
pub fn members_after(
    alloc: Global,
    row: &PosseRow,
    joins: &[u64],
    task: &TaskId,
) -> Result<Items<TaskId>, OutOfMemory>
    ensures { IfOk result (λ members. members ≡ members_in joins.now task.now row.now) }
{
    let mut members = row.members.twin(alloc)?;
    join_times(alloc, &mut members, task, joins, row.number)?;
    Ok(members)
}

// Adds the row's new members, where the task joins it.
fn push_list(
    alloc: Global,
    lists: &mut VecDeque<Items<TaskId>>,
    row: &PosseRow,
    joins: &[u64],
    task: &TaskId,
) -> Result<(), OutOfMemory>
    ensures { OnOk result (lists.new.items ≡ lists.old.items ++ member_lists joins.now task.now (row.now ∷ [])) }
{
    if is_listed(joins, row.number) {
        lists.push_back(members_after(alloc, row, joins, task)?)?;
    }
    Ok(())
}

// The new members of each row that the task joins, in row order.
fn lists_after(
    alloc: Global,
    rows: &[PosseRow],
    joins: &[u64],
    task: &TaskId,
) -> Result<VecDeque<Items<TaskId>>, OutOfMemory>
    ensures { IfOk result (λ lists. lists.items ≡ member_lists joins.now task.now rows.now) }
{
    let mut lists = VecDeque::new(alloc);
    for row in rows {
        push_list(alloc, &mut lists, row, joins, task)?;
    }
    Ok(lists)
}

fn revoke_listed(row: &mut PosseRow, numbers: &[u64])
    ensures { row.new ≡ revoked_in numbers.now row.old }
{
    row.revoked = row.revoked || is_listed(numbers, row.number);
}

fn take_members(row: &mut PosseRow, lists: &mut VecDeque<Items<TaskId>>)
    ensures row { row.new ≡ record row.old { members = unwrap_or (slice_get lists.old.items 0) row.old.members } }
    ensures lists { lists.new.items ≡ drop 1 lists.old.items }
{
    if let Some(members) = lists.pop_front() {
        row.members = members;
    }
}

fn change_row(row: &mut PosseRow, granted: &Granted, lists: &mut VecDeque<Items<TaskId>>)
    ensures { GrantsFirst granted.now.revoked granted.now.joins lists.old.items lists.new.items row.old row.new }
{
    revoke_listed(row, granted.revoked.as_slice());
    if is_listed(granted.joins.as_slice(), row.number) {
        take_members(row, lists);
    }
}

fn change_first(
    rows: &mut Vec<PosseRow>,
    count: usize,
    granted: &Granted,
    mut lists: VecDeque<Items<TaskId>>,
)
    requires { count ≤ length rows.old.items }
    ensures { GrantsFront granted.now.revoked granted.now.joins lists.items count rows.old.items rows.new.items }
{
    for at in 0..count {
        change_row(&mut rows[at], granted, &mut lists);
    }
}

/// Does to the rows what was granted to the task: revokes, joins and adds. The error is want of
/// memory, and leaves the rows as they were.
pub fn change_rows(
    alloc: Global,
    rows: &mut Vec<PosseRow>,
    granted: &Granted,
    task: &TaskId,
) -> Result<(), OutOfMemory>
    ensures ok { OnOk result (rows.new.items ≡ posses_after rows.old.items task.now granted.now) }
    ensures err { OnErr result (rows.new.items ≡ rows.old.items) }
{
    // All that takes memory comes before the first change of a row, and the new rows come at once.
    let lists = lists_after(alloc, rows, granted.joins.as_slice(), task)?;
    let mut made = granted.rows.twin(alloc)?.into_vec();
    let count = rows.len();
    rows.append(&mut made)?;
    change_first(rows, count, granted, lists);
    Ok(())
}
