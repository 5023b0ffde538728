//! Changes of locks in place.
ghost use Rattle.std.specs.Prelude.{◌≡◌, ◌==◌, ◌&&◌, [], ◌∷◌, not};
ghost use Rattle.book_rows.specs.Locks.{is_member, left, revoked_at};
ghost use Rattle.row_index.specs.Index.{digest_range};
ghost use Rattle.lock_posse.specs.Keys.{number_digest};
ghost use Rattle.lock_posse.specs.Laws.{leaving_covers, leaving_keeps, leaving_settles, revoking_covers, revoking_settles};

use crate::keys::{Lock, member_digest, number_digest};
use crate::searches::has_member;
use row_index::{Query, digest_key, digest_range};
use row_table::Change;
use seg_names::TaskId;

/// The lock of a number is revoked.
#[derive(Drop)]
pub struct Revoking {
    pub number: u64,
}

impl Query<Lock> for Revoking {
    ghost passes = { λ q p. (p.number == q.number) && not p.revoked };

    ghost ranges = { λ q. digest_range (number_digest q.number) ∷ [] };

    ghost covers = { λ q p on. revoking_covers q.number p on };

    fn passes(&self, row: &Lock) -> bool {
        row.row.number == self.number && !row.row.revoked
    }

    fn range_count(&self) -> usize {
        1
    }

    fn range(&self, _at: usize) -> ((u64, i64), i64) {
        digest_range(number_digest(self.number))
    }
}

impl Change<Lock> for Revoking {
    ghost after = { λ q p. revoked_at q.number p };

    ghost keeps = { λ q p k there. there };

    ghost settles = { λ q p on. revoking_settles q.number p on };

    fn change(&self, row: &mut Lock) {
        row.row.revoked = row.row.revoked || row.row.number == self.number;
    }

    fn lost(&self) -> Option<(u64, i64)> {
        None
    }
}

/// A task leaves the lock of a number.
#[derive(Drop)]
pub struct Leaving<'a> {
    pub number: u64,
    pub task: &'a TaskId,
}

impl Query<Lock> for Leaving<'_> {
    ghost passes = { λ q p. (p.number == q.number) && is_member q.task.now p };

    ghost ranges = { λ q. digest_range (number_digest q.number) ∷ [] };

    ghost covers = { λ q p on. leaving_covers q.number q.task.now p on };

    fn passes(&self, row: &Lock) -> bool {
        row.row.number == self.number && has_member(&row.row, self.task)
    }

    fn range_count(&self) -> usize {
        1
    }

    fn range(&self, _at: usize) -> ((u64, i64), i64) {
        digest_range(number_digest(self.number))
    }
}

impl Change<Lock> for Leaving<'_> {
    ghost after = { λ q p. left q.number q.task.now p };

    ghost keeps = { λ q p. leaving_keeps q.number q.task.now p };

    ghost settles = { λ q p on. leaving_settles q.number q.task.now p on };

    fn change(&self, row: &mut Lock) {
        if row.row.number == self.number {
            row.row.members.remove_equal(self.task);
        }
    }

    fn lost(&self) -> Option<(u64, i64)> {
        Some(digest_key(member_digest(self.task)))
    }
}
