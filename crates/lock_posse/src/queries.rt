//! What locks are looked for by: their number, and a member.
ghost use Rattle.std.specs.Prelude.{◌≡◌, ◌==◌, ◌&&◌, [], ◌∷◌, bytes_eq, not};
ghost use Rattle.std.specs.List.{list_any};
ghost use Rattle.book_rows.specs.Lists.{is_empty};
ghost use Rattle.book_rows.specs.Locks.{is_member};
ghost use Rattle.row_index.specs.Index.{digest_range};
ghost use Rattle.lock_posse.specs.Keys.{member_digest, number_digest};
ghost use Rattle.lock_posse.specs.Leaving.{is_last, left_by};
ghost use Rattle.lock_posse.specs.Laws.{ended_covers, last_covers, member_covers, number_covers};

use crate::keys::{Lock, member_digest, number_digest};
use crate::searches::has_member;
use book_rows::PosseRow;
use row_index::{Query, digest_range};
use seg_names::TaskId;

/// The lock of a number.
#[derive(Drop)]
pub struct Numbered {
    pub number: u64,
}

impl Query<Lock> for Numbered {
    ghost passes = { λ q p. p.number == q.number };

    ghost ranges = { λ q. digest_range (number_digest q.number) ∷ [] };

    ghost covers = { λ q p on. number_covers q.number p on };

    fn passes(&self, row: &Lock) -> bool {
        row.row.number == self.number
    }

    fn range_count(&self) -> usize {
        1
    }

    fn range(&self, _at: usize) -> ((u64, i64), i64) {
        digest_range(number_digest(self.number))
    }
}

/// The lock of a number, where it has no members.
#[derive(Drop)]
pub struct Ended {
    pub number: u64,
}

impl Query<Lock> for Ended {
    ghost passes = { λ q p. (p.number == q.number) && is_empty p.members };

    ghost ranges = { λ q. digest_range (number_digest q.number) ∷ [] };

    ghost covers = { λ q p on. ended_covers q.number p on };

    fn passes(&self, row: &Lock) -> bool {
        row.row.number == self.number && row.row.members.as_slice().is_empty()
    }

    fn range_count(&self) -> usize {
        1
    }

    fn range(&self, _at: usize) -> ((u64, i64), i64) {
        digest_range(number_digest(self.number))
    }
}

/// The locks that have a task as a member.
#[derive(Drop)]
pub struct Having<'a> {
    pub task: &'a TaskId,
}

impl Query<Lock> for Having<'_> {
    ghost passes = { λ q p. is_member q.task.now p };

    ghost ranges = { λ q. digest_range (member_digest q.task.now) ∷ [] };

    ghost covers = { λ q p on. member_covers q.task.now p on };

    fn passes(&self, row: &Lock) -> bool {
        has_member(&row.row, self.task)
    }

    fn range_count(&self) -> usize {
        1
    }

    fn range(&self, _at: usize) -> ((u64, i64), i64) {
        digest_range(member_digest(self.task))
    }
}

fn is_other(member: &TaskId, task: &TaskId) -> bool
    ensures { result ≡ not (bytes_eq member.now task.now) }
{
    *member != *task
}

fn has_other(members: &[TaskId], task: &TaskId) -> bool
    ensures { result ≡ list_any (λ m. not (bytes_eq m task.now)) members.now }
{
    members.iter().any(|member| is_other(member, task))
}

fn has_other_member(row: &PosseRow, task: &TaskId) -> bool
    ensures { result ≡ not (is_empty (left_by task.now row.now).members) }
{
    has_other(row.members.as_slice(), task)
}

/// The locks that have a task as their only member.
#[derive(Drop)]
pub struct HavingAlone<'a> {
    pub task: &'a TaskId,
}

impl Query<Lock> for HavingAlone<'_> {
    ghost passes = { λ q p. is_last q.task.now p };

    ghost ranges = { λ q. digest_range (member_digest q.task.now) ∷ [] };

    ghost covers = { λ q p on. last_covers q.task.now p on };

    fn passes(&self, row: &Lock) -> bool {
        has_member(&row.row, self.task) && !has_other_member(&row.row, self.task)
    }

    fn range_count(&self) -> usize {
        1
    }

    fn range(&self, _at: usize) -> ((u64, i64), i64) {
        digest_range(member_digest(self.task))
    }
}
