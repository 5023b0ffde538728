//! What is granted to a task, as updates of the table.
ghost use Rattle.std.specs.Prelude.{◌≡◌, ◌==◌, ◌||◌, ◌++◌, [], ◌∷◌, IfOk, OnErr, OnOk, Some, map, refl, unwrap_or};
ghost use Rattle.std.specs.Option.{option_copied};
ghost use Rattle.book_rows.specs.Grant.{posses_after};
ghost use Rattle.book_rows.specs.Locks.{HasDistinctNumbers, joined, posse_of};
ghost use Rattle.book_rows.specs.declared.rows.PosseRow.{PosseRow};
ghost use Rattle.row_index.specs.Index.{digest_range};
ghost use Rattle.lock_posse.specs.Keys.{number_digest};
ghost use Rattle.lock_posse.specs.Updates.{after_granting, granting_keys, grantings, joining};
ghost use Rattle.lock_posse.specs.UpdateLaws.{granting_brings, granting_covers};

use crate::OutOfMemory;
use crate::grants::members_after;
use crate::keys::{Lock, member_key, number_digest};
use crate::queries::Numbered;
use book_rows::{Granted, Items, PosseRow, Twin};
use row_index::{Keyed, Query, digest_range};
use row_table::{RowTable, Update};
use seg_names::TaskId;
use std::alloc::Global;

/// The lock of a number is revoked, or gets these members in place of its own.
#[derive(Drop)]
pub struct Granting {
    pub number: u64,
    pub revokes: bool,
    pub members: Option<Items<TaskId>>,
}

impl Query<Lock> for Granting {
    ghost passes = { λ q p. q.number == p.number };

    ghost ranges = { λ q. digest_range (number_digest q.number) ∷ [] };

    ghost covers = { λ q p on. granting_covers q.number p on };

    fn passes(&self, row: &Lock) -> bool {
        self.number == row.row.number
    }

    fn range_count(&self) -> usize {
        1
    }

    fn range(&self, _at: usize) -> ((u64, i64), i64) {
        digest_range(number_digest(self.number))
    }
}

impl Keyed for Granting {
    ghost keys = { λ q. granting_keys q.members };

    fn key_count(&self) -> usize {
        match &self.members {
            Some(members) => members.len(),
            None => 0,
        }
    }

    fn key(&self, at: usize) -> (u64, i64) {
        match &self.members {
            Some(members) => member_key(members.as_slice(), at),
            None => unreachable!(),
        }
    }
}

impl Update<Lock> for Granting {
    ghost after = { after_granting };

    ghost brings = { granting_brings };

    ghost stays = { λ q r p. refl };

    fn update(self, row: &mut Lock) {
        let Granting {
            number,
            revokes,
            members,
        } = self;
        if number == row.row.number {
            grant_row(&mut row.row, revokes, members);
        }
    }
}

fn take_members(row: &mut PosseRow, members: Option<Items<TaskId>>)
    ensures { row.new ≡ record row.old { members = unwrap_or members row.old.members } }
{
    if let Some(members) = members {
        row.members = members;
    }
}

fn grant_row(row: &mut PosseRow, revokes: bool, members: Option<Items<TaskId>>)
    ensures { row.new ≡ record row.old { revoked = row.old.revoked || revokes; members = unwrap_or members row.old.members } }
{
    row.revoked = row.revoked || revokes;
    take_members(row, members);
}

// The lock, where there is one, gets its members after the task joins those of these numbers.
fn push_joining(
    alloc: Global,
    updates: &mut Vec<Granting>,
    row: Option<&PosseRow>,
    joins: &[u64],
    task: &TaskId,
) -> Result<(), OutOfMemory>
    ensures { OnOk result (updates.new.items ≡ updates.old.items ++ joining (option_copied row.entry) joins.now task.now) }
{
    if let Some(row) = row {
        let members = members_after(alloc, row, joins, task)?;
        updates.push(Granting {
            number: row.number,
            revokes: false,
            members: Some(members),
        })?;
    }
    Ok(())
}

fn row_of(rows: &RowTable<Lock>, number: u64) -> Option<&PosseRow>
    ensures { option_copied result ≡ posse_of number rows.now }
{
    match rows.first(&Numbered { number }) {
        Some(lock) => Some(&lock.row),
        None => None,
    }
}

// The updates of the locks that are revoked, and then of those that the task joins.
fn grantings(
    alloc: Global,
    rows: &RowTable<Lock>,
    granted: &Granted,
    task: &TaskId,
) -> Result<Vec<Granting>, OutOfMemory>
    ensures { IfOk result (λ v. v.items ≡ grantings rows.now granted.now.revoked granted.now.joins task.now) }
{
    let joins = granted.joins.as_slice();
    let mut updates = Vec::new(alloc);
    for number in granted.revoked.as_slice() {
        updates.push(Granting {
            number: *number,
            revokes: true,
            members: None,
        })?;
    }
    for join in joins {
        push_joining(alloc, &mut updates, row_of(rows, *join), joins, task)?;
    }
    Ok(updates)
}

fn locks_of(alloc: Global, rows: Items<PosseRow>) -> Result<Vec<Lock>, OutOfMemory>
    ensures { IfOk result (λ v. v.items ≡ rows) }
{
    let mut locks = Vec::new(alloc);
    for row in rows.into_vec() {
        locks.push(Lock { row })?;
    }
    Ok(locks)
}

/// Does what was granted to the task: revokes, joins and adds. The error is want of memory.
pub fn apply_granted(
    alloc: Global,
    rows: &mut RowTable<Lock>,
    granted: &Granted,
    task: &TaskId,
) -> Result<(), OutOfMemory>
    requires { HasDistinctNumbers rows.old }
    ensures ok { OnOk result (rows.new ≡ posses_after rows.old task.now granted.now) }
    ensures err { OnErr result (rows.new ≡ rows.old) }
{
    let updates = grantings(alloc, rows, granted, task)?;
    let made = locks_of(alloc, granted.rows.twin(alloc)?)?;
    rows.apply(updates, made)
}

fn members_of(alloc: Global, row: Option<&PosseRow>) -> Result<Items<TaskId>, OutOfMemory>
    ensures { IfOk result (λ members. (p : PosseRow) → option_copied row.entry ≡ Some p → members ≡ p.members) }
{
    match row {
        Some(row) => row.members.twin(alloc),
        None => Ok(Items::new(alloc)),
    }
}

// The members of the lock of this number, and the task.
fn members_with(
    alloc: Global,
    rows: &RowTable<Lock>,
    number: u64,
    task: TaskId,
) -> Result<Items<TaskId>, OutOfMemory>
    ensures { IfOk result (λ members. (p : PosseRow) → posse_of number rows.now ≡ Some p → members ≡ p.members ++ task ∷ []) }
{
    let mut members = members_of(alloc, row_of(rows, number))?;
    members.push(task)?;
    Ok(members)
}

/// Adds the task to the lock of this number. The error is want of memory.
pub fn join_row(
    alloc: Global,
    rows: &mut RowTable<Lock>,
    number: u64,
    task: TaskId,
) -> Result<(), OutOfMemory>
    requires { HasDistinctNumbers rows.old }
    ensures ok { OnOk result (rows.new ≡ map (joined number task) rows.old) }
    ensures err { OnErr result (rows.new ≡ rows.old) }
{
    let members = members_with(alloc, rows, number, task)?;
    rows.update_first(Granting {
        number,
        revokes: false,
        members: Some(members),
    })
}
