//! Sequences are published and abandoned, in place.
ghost use Rattle.std.specs.Prelude.{◌≡◌, [], ◌∷◌, ◌&&◌, not};
ghost use Rattle.book_rows.specs.Sequences.{is_abandoned_by, is_named};
ghost use Rattle.row_index.specs.Index.{digest_range};
ghost use Rattle.tab_sequences.specs.ChangeLaws.{abandoning_keeps, abandoning_settles, publishing_keeps, publishing_settles};
ghost use Rattle.tab_sequences.specs.Changes.{is_other, with_abandoned, with_published};
ghost use Rattle.tab_sequences.specs.Covers.{abandoned_covers, other_covers};
ghost use Rattle.tab_sequences.specs.Keys.{group_range, name_digest};

use crate::entries::{Sequence, group_key, group_range};
use crate::queries::{has_name, is_of_group, name_range};
use crate::states::is_unpublished;
use book_rows::{Items, SeqState};
use row_index::Query;
use row_table::Change;
use seg_names::{Name, TaskId};
use std::alloc::Global;

/// The sequence of a name is published.
#[derive(Drop)]
pub struct Publishing<'a> {
    pub name: &'a TaskId,
    /// The key of its group, which it loses, where it is known.
    pub open: Option<(u64, i64)>,
}

impl Query<Sequence> for Publishing<'_> {
    ghost passes = { λ q u. is_other q.name.now u };

    ghost ranges = { λ q. digest_range (name_digest q.name.now) ∷ [] };

    ghost covers = { λ q u on. other_covers q.name.now u on };

    fn passes(&self, row: &Sequence) -> bool {
        has_name(row, self.name) && row.row.state != SeqState::Published
    }

    fn range_count(&self) -> usize {
        1
    }

    fn range(&self, _at: usize) -> ((u64, i64), i64) {
        name_range(self.name)
    }
}

impl Change<Sequence> for Publishing<'_> {
    ghost after = { λ q u. with_published u };

    ghost keeps = { λ q u. publishing_keeps u };

    ghost settles = { λ q u on. publishing_settles q.name.now u };

    fn change(&self, row: &mut Sequence) {
        row.row.state = SeqState::Published;
    }

    fn lost(&self) -> Option<(u64, i64)> {
        self.open
    }
}

/// The unpublished sequences of a group are abandoned, from an index on.
#[derive(Drop)]
pub struct Abandoning<'a> {
    pub alloc: Global,
    pub source: &'a Name,
    pub group: u32,
    pub from: u32,
}

impl Query<Sequence> for Abandoning<'_> {
    ghost passes = { λ q u. is_abandoned_by q.source.now q.group q.from u };

    ghost ranges = { λ q. group_range q.source.now q.group ∷ [] };

    ghost covers = { λ q u on. abandoned_covers q.source.now q.group q.from u on };

    fn passes(&self, row: &Sequence) -> bool {
        is_of_group(&row.row, self.source, self.group)
            && is_unpublished(row.row.state)
            && self.from <= row.row.index
    }

    fn range_count(&self) -> usize {
        1
    }

    fn range(&self, _at: usize) -> ((u64, i64), i64) {
        group_range(self.source, self.group)
    }
}

impl Change<Sequence> for Abandoning<'_> {
    ghost after = { λ q u. with_abandoned u };

    ghost keeps = { λ q u. abandoning_keeps u };

    ghost settles = { λ q u on. abandoning_settles q.source.now q.group q.from u };

    fn change(&self, row: &mut Sequence) {
        row.row.state = SeqState::Abandoned;
        row.row.live = Items::new(self.alloc);
    }

    fn lost(&self) -> Option<(u64, i64)> {
        Some(group_key(self.source, self.group))
    }
}
