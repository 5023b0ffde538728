//! A replica leaves its sequence.
ghost use Rattle.std.specs.Prelude.{◌≡◌, [], ◌∷◌};
ghost use Rattle.book_rows.specs.Reports.{left_by};
ghost use Rattle.row_index.specs.Index.{digest_range};
ghost use Rattle.tab_sequences.specs.ChangeLaws.{leaving_keeps, leaving_settles};
ghost use Rattle.tab_sequences.specs.Changes.{has_live_one};
ghost use Rattle.tab_sequences.specs.Covers.{live_covers};
ghost use Rattle.tab_sequences.specs.Keys.{live_digest};

use crate::entries::{Sequence, live_digest};
use book_rows::SequenceRow;
use row_index::{Query, digest_key, digest_range};
use row_table::Change;
use seg_names::TaskId;

fn is_live(row: &SequenceRow, task: &TaskId) -> bool
    ensures { result ≡ has_live_one task.now row.now }
{
    row.live.as_slice().iter().any(|live| *live == *task)
}

/// A task leaves the live replicas that it is one of.
#[derive(Drop)]
pub struct Leaving<'a> {
    pub task: &'a TaskId,
}

impl Query<Sequence> for Leaving<'_> {
    ghost passes = { λ q u. has_live_one q.task.now u };

    ghost ranges = { λ q. digest_range (live_digest q.task.now) ∷ [] };

    ghost covers = { λ q u on. live_covers q.task.now u on };

    fn passes(&self, row: &Sequence) -> bool {
        is_live(&row.row, self.task)
    }

    fn range_count(&self) -> usize {
        1
    }

    fn range(&self, _at: usize) -> ((u64, i64), i64) {
        digest_range(live_digest(self.task))
    }
}

impl Change<Sequence> for Leaving<'_> {
    ghost after = { λ q u. left_by q.task.now u };

    ghost keeps = { λ q u. leaving_keeps q.task.now u };

    ghost settles = { λ q u on. leaving_settles q.task.now u };

    fn change(&self, row: &mut Sequence) {
        row.row.live.remove_equal(self.task);
    }

    fn lost(&self) -> Option<(u64, i64)> {
        Some(digest_key(live_digest(self.task)))
    }
}
