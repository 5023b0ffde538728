//! Sequences are abandoned and pause, by name.
ghost use Rattle.std.specs.Prelude.{◌≡◌, [], ◌∷◌};
ghost use Rattle.row_index.specs.Index.{digest_range};
ghost use Rattle.tab_sequences.specs.ChangeLaws.{abandoning_keeps, open_one_settles, pausing_keeps, reading_one_settles};
ghost use Rattle.tab_sequences.specs.Changes.{is_open_one, is_reading_one, with_abandoned, with_paused};
ghost use Rattle.tab_sequences.specs.Covers.{open_one_covers, reading_one_covers};
ghost use Rattle.tab_sequences.specs.Keys.{name_digest};

use crate::entries::Sequence;
use crate::queries::{has_name, name_range};
use crate::states::is_unpublished;
use book_rows::{Items, SeqState};
use row_index::Query;
use row_table::Change;
use seg_names::TaskId;
use std::alloc::Global;

/// The unpublished sequence of a name is abandoned.
#[derive(Drop)]
pub struct AbandoningOne<'a> {
    pub alloc: Global,
    pub name: &'a TaskId,
    /// The key of its group, which it loses, where it is known.
    pub open: Option<(u64, i64)>,
}

impl Query<Sequence> for AbandoningOne<'_> {
    ghost passes = { λ q u. is_open_one q.name.now u };

    ghost ranges = { λ q. digest_range (name_digest q.name.now) ∷ [] };

    ghost covers = { λ q u on. open_one_covers q.name.now u on };

    fn passes(&self, row: &Sequence) -> bool {
        has_name(row, self.name) && is_unpublished(row.row.state)
    }

    fn range_count(&self) -> usize {
        1
    }

    fn range(&self, _at: usize) -> ((u64, i64), i64) {
        name_range(self.name)
    }
}

impl Change<Sequence> for AbandoningOne<'_> {
    ghost after = { λ q u. with_abandoned u };

    ghost keeps = { λ q u. abandoning_keeps u };

    ghost settles = { λ q u on. open_one_settles q.name.now u };

    fn change(&self, row: &mut Sequence) {
        row.row.state = SeqState::Abandoned;
        row.row.live = Items::new(self.alloc);
    }

    fn lost(&self) -> Option<(u64, i64)> {
        self.open
    }
}

/// The reading sequence of a name pauses.
#[derive(Drop)]
pub struct PausingOne<'a> {
    pub name: &'a TaskId,
}

impl Query<Sequence> for PausingOne<'_> {
    ghost passes = { λ q u. is_reading_one q.name.now u };

    ghost ranges = { λ q. digest_range (name_digest q.name.now) ∷ [] };

    ghost covers = { λ q u on. reading_one_covers q.name.now u on };

    fn passes(&self, row: &Sequence) -> bool {
        has_name(row, self.name) && row.row.state == SeqState::Reading
    }

    fn range_count(&self) -> usize {
        1
    }

    fn range(&self, _at: usize) -> ((u64, i64), i64) {
        name_range(self.name)
    }
}

impl Change<Sequence> for PausingOne<'_> {
    ghost after = { λ q u. with_paused u };

    ghost keeps = { λ q u. pausing_keeps u };

    ghost settles = { λ q u on. reading_one_settles q.name.now u };

    fn change(&self, row: &mut Sequence) {
        if row.row.state == SeqState::Reading {
            row.row.state = SeqState::Paused;
        }
    }

    fn lost(&self) -> Option<(u64, i64)> {
        None
    }
}
